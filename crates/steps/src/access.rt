// An access to the memory, and what it returned.
use memory::place::Place;

// A swap has the tag that it expects and the number that it writes.
#[derive(Clone, Copy, Debug, PartialEq, Eq)]
pub enum Access {
    Read(Place),
    Swap(Place, u32, u32),
}

// A read returns the tag and the number that stand at the place, two zeros where there is no such place;
// a swap says whether it was done.
#[derive(Clone, Copy, Debug, PartialEq, Eq)]
pub enum Got {
    Pair(u32, u32),
    Said(bool),
}
