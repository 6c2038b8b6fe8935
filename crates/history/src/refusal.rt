// Why a history is not judged or replayed.
ghost use Rattle.std.specs.Prelude.{◌≡◌, Some};
ghost use Rattle.history.specs.Refusals.{refusal_number, refusal_text};

use std::error::Error;
use std::fmt;

// Malformed names the first event that is not well formed, counted from 0.
#[derive(Clone, Copy, Debug, PartialEq, Eq)]
pub enum Refusal {
    SegmentSize,
    Segments,
    TooLong,
    Malformed(usize),
    TooFewRows,
    Overlap,
}

impl From<Refusal> for u32 {
    ghost from_gives = { λ refusal n. n ≡ refusal_number refusal };

    fn from(refusal: Refusal) -> u32 {
        match refusal {
            Refusal::SegmentSize => 1,
            Refusal::Segments => 2,
            Refusal::TooLong => 13,
            Refusal::Malformed(_) => 14,
            Refusal::TooFewRows => 15,
            Refusal::Overlap => 16,
        }
    }
}

// The number, with the event behind it where the refusal names one.
impl fmt::Display for Refusal {
    ghost output = { λ refusal. Some (refusal_text refusal) };

    fn fmt<W: fmt::Write>(&self, f: &mut fmt::Formatter<W>) -> fmt::Result {
        let number = u32::from(*self);
        match *self {
            Refusal::Malformed(event) => write!(f, "{number}:{event}"),
            _ => write!(f, "{number}"),
        }
    }
}

impl Error for Refusal {}
