// The steps of a put until its item stands in a slot.
use super::kept::{KeptSlot, Marker};
use super::search::Search;

// t is the kept tail, h the kept head.
#[derive(Clone, Copy, Debug, PartialEq, Eq)]
pub enum PutStep {
    // read tail
    P1,
    // t: read head
    P2(Marker),
    // t, h: probe the segment at t for an empty slot
    P3(Marker, Marker, Search),
    // t, h, the slot found: read tail
    P4(Marker, Marker, Option<KeptSlot>),
    // swap the item into the slot
    P5(KeptSlot),
    // t: swap tail on
    P6(Marker),
    // h: probe the segment at h for an occupied slot
    P7(Marker, Search),
    // h: read head
    P8(Marker),
    // h: swap head on
    P9(Marker),
}
