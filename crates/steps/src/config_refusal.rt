// Why there is no such configuration.
ghost use Rattle.std.specs.Prelude.{◌≡◌, Some};
ghost use Rattle.steps.specs.Configs.{refusal_number, refusal_text};

use std::error::Error;
use std::fmt;

#[derive(Clone, Copy, Debug, PartialEq, Eq)]
pub enum ConfigRefusal {
    SegmentSize,
    Segments,
    Threads,
}

// The number of each refusal.
impl From<ConfigRefusal> for u32 {
    ghost from_gives = { λ refusal n. n ≡ refusal_number refusal };

    fn from(refusal: ConfigRefusal) -> u32 {
        match refusal {
            ConfigRefusal::SegmentSize => 1,
            ConfigRefusal::Segments => 2,
            ConfigRefusal::Threads => 3,
        }
    }
}

// Written at each type of refusal, since an impl by a macro of the repository's own is refused.
impl fmt::Display for ConfigRefusal {
    ghost output = { λ refusal. Some (refusal_text refusal) };

    fn fmt<W: fmt::Write>(&self, f: &mut fmt::Formatter<W>) -> fmt::Result {
        write!(f, "{}", u32::from(*self))
    }
}

impl Error for ConfigRefusal {}
