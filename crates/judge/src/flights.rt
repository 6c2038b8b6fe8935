// The calls in flight.
ghost use Rattle.std.specs.Prelude.{◌+◌, ◌<◌, List, length};
ghost use Rattle.history.specs.declared.event.Event.{Event};
ghost use Rattle.history.specs.WellFormed.{Formed};
ghost use Rattle.judge.specs.State.{FlightsAre};

use history::event::{Event, Kind};
use history::threads::LastEvents;

// Each thread's last event, how many calls are in flight, and whether two ever were together.
#[derive(Clone, Copy)]
pub(super) struct Flights {
    pub last_events: LastEvents,
    pub count: usize,
    pub crossed: bool,
}

impl Flights {
    // Before the first event.
    pub(super) fn new() -> Flights
        ensures { (h : List Event) → FlightsAre h 0 result }
    {
        Flights {
            last_events: LastEvents::new(),
            count: 0,
            crossed: false,
        }
    }

    // Notes the call that event i begins or answers.
    pub(super) fn note(&mut self, history: &[Event], i: usize)
        requires within { i < length history.now }
        requires formed { Formed history.now }
        requires flights { FlightsAre history.now i self.old }
        ensures { FlightsAre history.now (i + 1) self.new }
    {
        let event = history[i];
        self.last_events.note(event.thread, i);
        match event.kind {
            Kind::PutBegun | Kind::TakeBegun => self.count += 1,
            Kind::Accepted | Kind::Full | Kind::HandedOut | Kind::Empty => self.count -= 1,
        }
        self.crossed = self.crossed || self.count > 1;
    }
}
