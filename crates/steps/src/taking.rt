// The steps D1 to D8 of a take.
ghost use Rattle.std.specs.Prelude.{◌≡◌};
ghost use Rattle.steps.specs.Ring.{ring};
ghost use Rattle.steps.specs.Rows.{access_of, led};
ghost use Rattle.steps.specs.TakeTable.{take_row, after_D2, after_D4, after_D7};

use super::access::{Access, Got};
use super::answer::Answer;
use super::call::Call;
use super::kept::{KeptItem, Marker};
use super::search::Search;
use super::tag::is_same;
use super::take_step::TakeStep;
use super::turn::Turn;
use memory::place::Place;

impl TakeStep {
    pub(crate) fn access(self, turn: Turn) -> Access
        ensures { result ≡ access_of (take_row (ring turn.config) turn.start self) }
    {
        let Turn { config, .. } = turn;
        match self {
            Self::D1 => Access::Read(Place::Head),
            Self::D2(h, s) => Access::Read(Place::Slot(turn.probe(h, s))),
            Self::D3(_, _) => Access::Read(Place::Tail),
            Self::D4(_, _, _) => Access::Read(Place::Head),
            Self::D5(_, t) => Access::Swap(Place::Tail, t.tag, config.next(t.at)),
            Self::D6(found) => Access::Swap(Place::Slot(found.index), found.tag, 0),
            Self::D7(_, _) => Access::Read(Place::Tail),
            Self::D8(h) => Access::Swap(Place::Head, h.tag, config.next(h.at)),
        }
    }

    // Where the step leads by what its access returned.
    pub(crate) fn advanced(self, turn: Turn, got: Got) -> Call
        ensures { result ≡ led (take_row (ring turn.config) turn.start self) got (Call.Taking self) }
    {
        let Turn { config, .. } = turn;
        let next = match (self, got) {
            (Self::D1, Got::Pair(tag, n)) => Self::D2(config.marker(tag, n), Search::Fresh),
            (Self::D2(h, s), Got::Pair(tag, n)) => after_d2(turn, h, s, tag, n),
            (Self::D3(h, kept), Got::Pair(tag, n)) => Self::D4(h, kept, config.marker(tag, n)),
            (Self::D4(h, kept, t), Got::Pair(tag, _)) => after_d4(h, kept, t, tag),
            (Self::D5(found, _), Got::Said(_)) => Self::D6(found),
            (Self::D6(found), Got::Said(true)) => return Call::Answered(Answer::Item(found.item)),
            (Self::D6(_), Got::Said(false)) => Self::D1,
            (Self::D7(h, t), Got::Pair(tag, _)) => return after_d7(h, t, tag),
            (Self::D8(_), Got::Said(_)) => Self::D1,
            (same, _) => same,
        };
        Call::Taking(next)
    }
}

// Each function below stands beside one row of the step table, so the search ends in it and in no shared helper.

// After a probe for an occupied slot.
fn after_d2(turn: Turn, h: Marker, s: Search, tag: u32, item: u32) -> TakeStep
    ensures { result ≡ after_D2 (ring turn.config) turn.start h s tag item }
{
    if item != 0 {
        let index = turn.probe(h, s);
        return TakeStep::D3(h, Some(KeptItem { index, tag, item }));
    }
    match turn.further(s) {
        Some(further) => TakeStep::D2(h, further),
        None => TakeStep::D3(h, None),
    }
}

// After the second read of head.
fn after_d4(h: Marker, kept: Option<KeptItem>, t: Marker, tag: u32) -> TakeStep
    ensures { result ≡ after_D4 h kept t tag }
{
    if !is_same(tag, h.tag) {
        return TakeStep::D1;
    }
    match kept {
        Some(found) if t.at == h.at => TakeStep::D5(found, t),
        Some(found) => TakeStep::D6(found),
        None if t.at == h.at => TakeStep::D7(h, t),
        None => TakeStep::D8(h),
    }
}

// After the second read of tail.
fn after_d7(h: Marker, t: Marker, tag: u32) -> Call
    ensures { result ≡ after_D7 h t tag }
{
    if is_same(tag, t.tag) {
        Call::Answered(Answer::Empty)
    } else {
        Call::Taking(TakeStep::D8(h))
    }
}
