// Walks over the acceptances of a history, from the oldest that may be of a held item.
ghost use Rattle.judge.specs.State.{Knows};
ghost use Rattle.judge.specs.Walk.{Walk, Walked, First};

use super::judging::Judging;
use super::row::Row;
use history::event::{Event, Kind};

// Passes each item accepted from event `from` to before event `to` that is not handed out; answers how many, or nothing where one is now passed k times.
// No method of `Judging`: the loop lends one row, which a slice allows and a field behind `self` does not.
pub(super) fn pass(
    history: &[Event],
    rows: &mut [Row],
    from: usize,
    to: usize,
    k: u32,
) -> Option<usize>
    requires { Walk k history.now rows.old from to }
    ensures { Walked k history.now to rows.old rows.new result }
{
    let start = from.min(to);
    let mut older = 0;
    for event in &history[start..to] {
        if event.kind == Kind::Accepted {
            let row = &mut rows[event.item as usize - 1];
            if !row.handed {
                if row.passes + 1 >= k {
                    return None;
                }
                row.passes += 1;
                older += 1;
            }
        }
    }
    Some(older)
}

impl Judging<'_> {
    // The first acceptance before event i of an item that is held; i where there is none.
    pub(super) fn first_held(&self, i: usize) -> usize
        requires { Knows self.now i }
        ensures { First self.now.history.now i result }
    {
        let oldest = self.seen.oldest;
        let held = self.history[oldest..i].iter().position(|event| {
            event.kind == Kind::Accepted && !self.rows[event.item as usize - 1].handed
        });
        match held {
            Some(ahead) => oldest + ahead,
            None => i,
        }
    }
}
