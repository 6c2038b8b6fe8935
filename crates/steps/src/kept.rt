// What a step keeps for the steps after it.

// A marker that was read: its tag and its position.
#[derive(Clone, Copy, Debug, PartialEq, Eq)]
pub struct Marker {
    pub tag: u32,
    pub at: u32,
}

// A slot that a put found empty, with the tag that it had then; once the item stands there, with the tag that it has since.
#[derive(Clone, Copy, Debug, PartialEq, Eq)]
pub struct KeptSlot {
    pub index: usize,
    pub tag: u32,
}

// A slot that a take found occupied.
#[derive(Clone, Copy, Debug, PartialEq, Eq)]
pub struct KeptItem {
    pub index: usize,
    pub tag: u32,
    pub item: u32,
}
