// The steps of a take.
use super::kept::{KeptItem, Marker};
use super::search::Search;

// h is the kept head, t the kept tail.
#[derive(Clone, Copy, Debug, PartialEq, Eq)]
pub enum TakeStep {
    // read head
    D1,
    // h: probe the segment at h for an occupied slot
    D2(Marker, Search),
    // h, the item found: read tail
    D3(Marker, Option<KeptItem>),
    // h, the item found, t: read head
    D4(Marker, Option<KeptItem>, Marker),
    // the item found, t: swap tail on
    D5(KeptItem, Marker),
    // swap the item out of its slot
    D6(KeptItem),
    // h, t: read tail
    D7(Marker, Marker),
    // h: swap head on
    D8(Marker),
}
