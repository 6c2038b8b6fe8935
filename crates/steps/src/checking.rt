// The steps C1 to C5 of a put.
ghost use Rattle.std.specs.Prelude.{◌≡◌};
ghost use Rattle.steps.specs.Ring.{ring};
ghost use Rattle.steps.specs.Rows.{access_of, led};
ghost use Rattle.steps.specs.CheckTable.{check_row, after_C1, after_C3};

use super::access::{Access, Got};
use super::answer::Answer;
use super::call::Call;
use super::check_step::CheckStep;
use super::config::Config;
use super::kept::{KeptSlot, Marker};
use super::put_step::PutStep;
use super::tag::is_same;
use memory::place::Place;

// Item and slot stay two arguments, as `Call::Checking` and the rows of the step table have them.
impl CheckStep {
    pub(crate) fn access(self, config: Config, item: u32, slot: KeptSlot) -> Access
        ensures { result ≡ access_of (check_row (ring config) item slot self) }
    {
        match self {
            Self::C1 => Access::Read(Place::Slot(slot.index)),
            Self::C2 => Access::Read(Place::Head),
            Self::C3(_) => Access::Read(Place::Tail),
            Self::C4(c) => Access::Swap(Place::Head, c.tag, c.at),
            Self::C5 => Access::Swap(Place::Slot(slot.index), slot.tag, 0),
        }
    }

    // Where the step leads by what its access returned.
    pub(crate) fn advanced(self, config: Config, item: u32, slot: KeptSlot, got: Got) -> Call
        ensures { result ≡ led (check_row (ring config) item slot self) got (Call.Checking item slot self) }
    {
        let next = match (self, got) {
            (Self::C1, Got::Pair(tag, _)) => return after_c1(item, slot, tag),
            (Self::C2, Got::Pair(tag, n)) => Self::C3(config.marker(tag, n)),
            (Self::C3(c), Got::Pair(_, n)) => return after_c3(config, item, slot, c, n),
            (Self::C4(_), Got::Said(true)) => return Call::Answered(Answer::Accepted),
            (Self::C4(_), Got::Said(false)) => Self::C5,
            (Self::C5, Got::Said(true)) => return Call::Putting(item, PutStep::P1),
            (Self::C5, Got::Said(false)) => return Call::Answered(Answer::Accepted),
            (same, _) => same,
        };
        Call::Checking(item, slot, next)
    }
}

// After the read of the slot.
fn after_c1(item: u32, slot: KeptSlot, tag: u32) -> Call
    ensures { result ≡ after_C1 item slot tag }
{
    if is_same(tag, slot.tag) {
        Call::Checking(item, slot, CheckStep::C2)
    } else {
        Call::Answered(Answer::Accepted)
    }
}

// After the read of tail: does the item's segment lie between head and tail?
fn after_c3(config: Config, item: u32, slot: KeptSlot, c: Marker, e: u32) -> Call
    ensures { result ≡ after_C3 (ring config) item slot c e }
{
    let head = c.at as usize;
    let a = config.distance(head, config.segment_of(slot.index));
    let b = config.distance(head, config.position(e) as usize);
    if a == 0 {
        Call::Checking(item, slot, CheckStep::C4(c))
    } else if a <= b {
        Call::Answered(Answer::Accepted)
    } else {
        Call::Checking(item, slot, CheckStep::C5)
    }
}
