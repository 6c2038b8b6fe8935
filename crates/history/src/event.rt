// An event of a history: a call's begin or its answer.
ghost use Rattle.std.specs.Prelude.{◌≡◌};
ghost use Rattle.history.specs.Events.{kind_number};

#[derive(Clone, Copy, Debug, PartialEq, Eq)]
pub enum Kind {
    PutBegun,
    TakeBegun,
    Accepted,
    Full,
    HandedOut,
    Empty,
}

impl From<Kind> for u32 {
    ghost from_gives = { λ kind n. n ≡ kind_number kind };

    fn from(kind: Kind) -> u32 {
        match kind {
            Kind::PutBegun => 1,
            Kind::TakeBegun => 2,
            Kind::Accepted => 3,
            Kind::Full => 4,
            Kind::HandedOut => 5,
            Kind::Empty => 6,
        }
    }
}

// The item is the number of the put that the event speaks of, from 1; a take's begin and an empty answer carry 0.
#[derive(Clone, Copy, Debug, PartialEq, Eq)]
pub struct Event {
    pub kind: Kind,
    pub thread: u32,
    pub item: u32,
}
