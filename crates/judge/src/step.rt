// One event of a history.
ghost use Rattle.std.specs.Prelude.{◌≡◌};
ghost use Rattle.history.specs.Events.{event_at};
ghost use Rattle.judge.specs.State.{FlightsAre, Knows, Stepped};

use super::fault::Fault;
use super::flights::Flights;
use super::judging::Judging;
use history::event::{Event, Kind};

impl Judging<'_> {
    // Event i, with the calls in flight before it: its lowest fault, if it shows one.
    pub(super) fn step(&mut self, i: usize, event: Event, flights: &Flights) -> Option<Fault>
        requires told { event ≡ event_at self.old.history.now i }
        requires knows { Knows self.old i }
        requires flights { FlightsAre self.old.history.now i flights.now }
        ensures { Stepped self.old self.new i result }
    {
        match event.kind {
            Kind::PutBegun => {
                self.rows[event.item as usize - 1].began = Some(i);
                None
            }
            Kind::TakeBegun => None,
            Kind::Accepted => {
                let m = event.item as usize - 1;
                let handed = self.rows[m].handed;
                self.rows[m].accepted = true;
                if !handed {
                    self.seen.held += 1;
                }
                None
            }
            Kind::Full => self.answer_full(i, flights.crossed),
            Kind::HandedOut => self.hand_out(i),
            Kind::Empty => self.answer_empty(i, flights.last_events.of(event.thread)),
        }
    }
}
