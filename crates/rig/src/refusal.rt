// Why a call on a rig is refused.
ghost use Rattle.std.specs.Prelude.{◌≡◌, Some};
ghost use Rattle.rig.specs.Refusals.{refusal_number, refusal_text};

use std::error::Error;
use std::fmt;

#[derive(Clone, Copy, Debug, PartialEq, Eq)]
pub enum Refusal {
    TooFewSlots,
    NoSuchThread,
    NotIdle,
    NoEntry,
    NoRow,
    NoCallInFlight,
    TooManySteps,
    NotPresentCall,
    NotAnswered,
}

// The number of the question that was answered no.
impl From<Refusal> for u32 {
    ghost from_gives = { λ refusal n. n ≡ refusal_number refusal };

    fn from(refusal: Refusal) -> u32 {
        match refusal {
            Refusal::TooFewSlots => 4,
            Refusal::NoSuchThread => 5,
            Refusal::NotIdle => 6,
            Refusal::NoEntry => 7,
            Refusal::NoRow => 8,
            Refusal::NoCallInFlight => 9,
            Refusal::TooManySteps => 10,
            Refusal::NotPresentCall => 11,
            Refusal::NotAnswered => 12,
        }
    }
}

// Written at each type of refusal, since an impl by a macro of the repository's own is refused.
impl fmt::Display for Refusal {
    ghost output = { λ refusal. Some (refusal_text refusal) };

    fn fmt<W: fmt::Write>(&self, f: &mut fmt::Formatter<W>) -> fmt::Result {
        write!(f, "{}", u32::from(*self))
    }
}

impl Error for Refusal {}
