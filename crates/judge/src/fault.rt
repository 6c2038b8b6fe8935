// How an event breaks the promise of the queue.
ghost use Rattle.judge.specs.Faults.{fault_number};
ghost use Rattle.std.specs.Prelude.{◌≡◌};

// An item is handed out that is not there, or past another one too often, or before too many older ones; a take is answered empty, or a put full, though the queue is not.
#[derive(Clone, Copy, Debug, PartialEq, Eq)]
pub enum Fault {
    NotThere,
    PassedTooOften,
    TooManyOlder,
    NotEmpty,
    NotFull,
}

impl From<Fault> for u32 {
    ghost from_gives = { λ fault n. n ≡ fault_number fault };

    fn from(fault: Fault) -> u32 {
        match fault {
            Fault::NotThere => 1,
            Fault::PassedTooOften => 2,
            Fault::TooManyOlder => 3,
            Fault::NotEmpty => 4,
            Fault::NotFull => 5,
        }
    }
}
