// Whether calls were made one at a time.
ghost use Rattle.std.specs.Prelude.{◌≡◌, ◌≤◌, length, Decides};
ghost use Rattle.history.specs.WellFormed.{Formed};
ghost use Rattle.history.specs.Calls.{Apart};

use history::event::{Event, Kind};

// Whether at most one call was in flight at a time: each begin came where no call was.
pub fn one_at_a_time(history: &[Event]) -> bool
    requires { Formed history.now }
    ensures { Decides result (Apart history.now (length history.now)) }
{
    let mut busy = false;
    for event in history {
        let begins = matches!(event.kind, Kind::PutBegun | Kind::TakeBegun);
        if busy && begins {
            return false;
        }
        busy = begins;
    }
    true
}
