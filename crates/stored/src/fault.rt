// What keeps a stored history from being judged.
ghost use Rattle.std.specs.Prelude.{◌≡◌};
ghost use Rattle.stored.specs.declared.fault.Fault.TheVariants.{Bad, Refused as Declined, Memory};

use history::refusal::Refusal;
use std::alloc::{AllocError, AllocFailed};
use text::BadLine;

// A line that cannot be taken, a history that is refused, or want of memory.
#[derive(Clone, Copy, Debug, PartialEq, Eq)]
pub enum Fault {
    Bad(BadLine),
    Refused(Refusal),
    Memory,
}

// Written out, since a derived From has no clause that says which fault a `?` makes.
impl From<BadLine> for Fault {
    ghost from_gives = { λ bad r. r ≡ Bad bad };

    fn from(bad: BadLine) -> Fault {
        Fault::Bad(bad)
    }
}

impl From<Refusal> for Fault {
    ghost from_gives = { λ refusal r. r ≡ Declined refusal };

    fn from(refusal: Refusal) -> Fault {
        Fault::Refused(refusal)
    }
}

impl From<AllocError> for Fault {
    ghost from_gives = { λ _ r. r ≡ Memory };

    fn from(_e: AllocError) -> Fault {
        Fault::Memory
    }
}

impl<T: Drop> From<AllocFailed<T>> for Fault {
    ghost from_gives = { λ _ r. r ≡ Memory };

    fn from(_e: AllocFailed<T>) -> Fault {
        Fault::Memory
    }
}
