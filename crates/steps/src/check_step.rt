// The steps of a put once its item stands in a slot: is it between head and tail?
use super::kept::Marker;

// c is the kept head.
#[derive(Clone, Copy, Debug, PartialEq, Eq)]
pub enum CheckStep {
    // read the slot
    C1,
    // read head
    C2,
    // c: read tail
    C3(Marker),
    // c: swap head to the same position
    C4(Marker),
    // swap the item out of the slot
    C5,
}
