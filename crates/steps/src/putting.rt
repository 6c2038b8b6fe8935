// The steps P1 to P9 of a put.
ghost use Rattle.std.specs.Prelude.{◌≡◌};
ghost use Rattle.steps.specs.Ring.{ring};
ghost use Rattle.steps.specs.Rows.{access_of, led};
ghost use Rattle.steps.specs.PutTable.{put_row, after_P3, after_P4, after_P5, after_P7, after_P8};

use super::access::{Access, Got};
use super::answer::Answer;
use super::call::Call;
use super::check_step::CheckStep;
use super::config::Config;
use super::kept::{KeptSlot, Marker};
use super::put_step::PutStep;
use super::search::Search;
use super::tag::{is_same, raise};
use super::turn::Turn;
use memory::place::Place;

impl PutStep {
    pub(crate) fn access(self, turn: Turn, item: u32) -> Access
        ensures { result ≡ access_of (put_row (ring turn.config) turn.start item self) }
    {
        let Turn { config, .. } = turn;
        match self {
            Self::P1 => Access::Read(Place::Tail),
            Self::P2(_) => Access::Read(Place::Head),
            Self::P3(t, _, s) => Access::Read(Place::Slot(turn.probe(t, s))),
            Self::P4(_, _, _) => Access::Read(Place::Tail),
            Self::P5(slot) => Access::Swap(Place::Slot(slot.index), slot.tag, item),
            Self::P6(t) => Access::Swap(Place::Tail, t.tag, config.next(t.at)),
            Self::P7(h, s) => Access::Read(Place::Slot(turn.probe(h, s))),
            Self::P8(_) => Access::Read(Place::Head),
            Self::P9(h) => Access::Swap(Place::Head, h.tag, config.next(h.at)),
        }
    }

    // Where the step leads by what its access returned.
    pub(crate) fn advanced(self, turn: Turn, item: u32, got: Got) -> Call
        ensures { result ≡ led (put_row (ring turn.config) turn.start item self) got (Call.Putting item self) }
    {
        let Turn { config, .. } = turn;
        let next = match (self, got) {
            (Self::P1, Got::Pair(tag, n)) => Self::P2(config.marker(tag, n)),
            (Self::P2(t), Got::Pair(tag, n)) => Self::P3(t, config.marker(tag, n), Search::Fresh),
            (Self::P3(t, h, s), Got::Pair(tag, n)) => after_p3(turn, t, h, s, tag, n),
            (Self::P4(t, h, kept), Got::Pair(tag, _)) => after_p4(config, t, h, kept, tag),
            (Self::P5(slot), Got::Said(done)) => return after_p5(item, slot, done),
            (Self::P6(_), Got::Said(_)) => Self::P1,
            (Self::P7(h, s), Got::Pair(_, n)) => after_p7(turn, h, s, n),
            (Self::P8(h), Got::Pair(tag, _)) => return after_p8(item, h, tag),
            (Self::P9(_), Got::Said(_)) => Self::P1,
            (same, _) => same,
        };
        Call::Putting(item, next)
    }
}

// Each function below stands beside one row of the step table, so the two searches end in it and in no shared helper.

// After a probe for an empty slot.
fn after_p3(turn: Turn, t: Marker, h: Marker, s: Search, tag: u32, n: u32) -> PutStep
    ensures { result ≡ after_P3 (ring turn.config) turn.start t h s tag n }
{
    if n == 0 {
        let index = turn.probe(t, s);
        return PutStep::P4(t, h, Some(KeptSlot { index, tag }));
    }
    match turn.further(s) {
        Some(further) => PutStep::P3(t, h, further),
        None => PutStep::P4(t, h, None),
    }
}

// After the second read of tail.
fn after_p4(config: Config, t: Marker, h: Marker, kept: Option<KeptSlot>, tag: u32) -> PutStep
    ensures { result ≡ after_P4 (ring config) t h kept tag }
{
    if !is_same(tag, t.tag) {
        return PutStep::P1;
    }
    match kept {
        Some(slot) => PutStep::P5(slot),
        None if config.next(t.at) == h.at => PutStep::P7(h, Search::Fresh),
        None => PutStep::P6(t),
    }
}

// After the swap of the slot, which raised its tag where it was done.
fn after_p5(item: u32, slot: KeptSlot, done: bool) -> Call
    ensures { result ≡ after_P5 item slot done }
{
    if !done {
        return Call::Putting(item, PutStep::P1);
    }
    let stored = KeptSlot {
        index: slot.index,
        tag: raise(slot.tag),
    };
    Call::Checking(item, stored, CheckStep::C1)
}

// After a probe for an occupied slot.
fn after_p7(turn: Turn, h: Marker, s: Search, n: u32) -> PutStep
    ensures { result ≡ after_P7 (ring turn.config) turn.start h s n }
{
    if n != 0 {
        return PutStep::P8(h);
    }
    match turn.further(s) {
        Some(further) => PutStep::P7(h, further),
        None => PutStep::P9(h),
    }
}

// After the second read of head.
fn after_p8(item: u32, h: Marker, tag: u32) -> Call
    ensures { result ≡ after_P8 item h tag }
{
    if is_same(tag, h.tag) {
        Call::Answered(Answer::Full)
    } else {
        Call::Putting(item, PutStep::P1)
    }
}
