// The answers to calls that can show a fault: an item handed out, a put answered full, a take answered empty.
ghost use Rattle.std.specs.Prelude.{◌≡◌};
ghost use Rattle.history.specs.Events.{kind_at, thread_at};
ghost use Rattle.history.specs.Calls.{last_event};
ghost use Rattle.history.specs.Tables.{mark};
ghost use Rattle.judge.specs.Flights.{together};
ghost use Rattle.judge.specs.State.{Knows, Stepped};

use super::fault::Fault;
use super::judging::Judging;
use super::walk::pass;

impl Judging<'_> {
    // An item is handed out. One behind the last row was never put.
    pub(super) fn hand_out(&mut self, i: usize) -> Option<Fault>
        requires five { kind_at self.old.history.now i ≡ 5 }
        requires knows { Knows self.old i }
        ensures { Stepped self.old self.new i result }
    {
        let m = self.history[i].item as usize - 1;
        if m >= self.rows.len() {
            return Some(Fault::NotThere);
        }
        let row = self.rows[m];
        let Some(began) = row.began else {
            return Some(Fault::NotThere);
        };
        if row.refused || row.handed {
            return Some(Fault::NotThere);
        }
        self.seen.oldest = self.first_held(i);
        let k = self.shape.k.get();
        let Some(older) = pass(self.history, self.rows, self.seen.oldest, began, k) else {
            return Some(Fault::PassedTooOften);
        };
        if older >= k as usize {
            return Some(Fault::TooManyOlder);
        }
        self.rows[m].handed = true;
        if row.accepted {
            self.seen.held -= 1;
        }
        None
    }

    // A put is answered full; `crossed` says whether two calls were in flight together so far.
    pub(super) fn answer_full(&mut self, i: usize, crossed: bool) -> Option<Fault>
        requires four { kind_at self.old.history.now i ≡ 4 }
        requires knows { Knows self.old i }
        requires crossed { crossed ≡ together self.old.history.now i }
        ensures { Stepped self.old self.new i result }
    {
        let m = self.history[i].item as usize - 1;
        if self.rows[m].handed {
            return Some(Fault::NotThere);
        }
        let k = self.shape.k.get() as usize;
        let segments = self.shape.segments.get() as usize;
        if !crossed && self.seen.held <= (segments - 1) * k {
            return Some(Fault::NotFull);
        }
        self.rows[m].refused = true;
        None
    }

    // A take is answered empty; its thread's event before this one is event `last`.
    pub(super) fn answer_empty(&mut self, i: usize, last: Option<usize>) -> Option<Fault>
        requires six { kind_at self.old.history.now i ≡ 6 }
        requires knows { Knows self.old i }
        requires last { mark last ≡ last_event self.old.history.now (thread_at self.old.history.now i) i }
        ensures { Stepped self.old self.new i result }
    {
        self.seen.oldest = self.first_held(i);
        match last {
            Some(begun) if self.seen.oldest < begun => Some(Fault::NotEmpty),
            _ => None,
        }
    }
}
