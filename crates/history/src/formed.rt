// Whether a history is well formed.
ghost use Rattle.std.specs.Prelude.{◌≡◌, ◌<◌, ◌≤◌, length};
ghost use Rattle.history.specs.WellFormed.{formed, Read};
ghost use Rattle.history.specs.Tables.{Counted, mark, call_begun};

use super::event::{Event, Kind};
use super::threads::LastEvents;

// The begin of a thread's call that is in flight, given where the thread's last event stands.
fn call_in_flight(history: &[Event], last: Option<usize>) -> Option<Event>
    requires { mark last ≤ length history.now }
    ensures { result ≡ call_begun history.now (mark last) }
{
    let event = history[last?];
    matches!(event.kind, Kind::PutBegun | Kind::TakeBegun).then_some(event)
}

#[tactic(auto, using(crate::proofs::Tables::last_within))]
fn is_formed(history: &[Event], i: usize, threads: &LastEvents, begun: usize) -> bool
    requires within { i < length history.now }
    requires counted { Counted history.now i threads.now begun }
    ensures { result ≡ formed history.now i }
{
    let e = history[i];
    if e.thread >= 64 {
        return false;
    }
    let last = threads.of(e.thread);
    // By the event's kind first, and not by both at once: no more is then read of the call in flight than the event's kind asks for.
    match e.kind {
        Kind::PutBegun => {
            call_in_flight(history, last).is_none() && e.item as usize == begun + 1
        }
        Kind::TakeBegun => call_in_flight(history, last).is_none() && e.item == 0,
        Kind::Accepted | Kind::Full => matches!(
            call_in_flight(history, last),
            Some(call) if call.kind == Kind::PutBegun && e.item == call.item
        ),
        Kind::HandedOut => matches!(
            call_in_flight(history, last),
            Some(call) if call.kind == Kind::TakeBegun && e.item > 0
        ),
        Kind::Empty => matches!(
            call_in_flight(history, last),
            Some(call) if call.kind == Kind::TakeBegun && e.item == 0
        ),
    }
}

// The number of puts begun in a well-formed history, or the first event that is not well formed: its position is the whole error, so no enum of one case.
pub fn puts_begun(history: &[Event]) -> Result<usize, usize>
    ensures { Read history.now result }
{
    let mut threads = LastEvents::new();
    let mut begun = 0;
    for (i, event) in history.iter().enumerate() {
        if !is_formed(history, i, &threads, begun) {
            return Err(i);
        }
        threads.note(event.thread, i);
        if event.kind == Kind::PutBegun {
            begun += 1;
        }
    }
    Ok(begun)
}
