// What the judge knows of all items together.

// No acceptance before the event `oldest` is of an item still held; `held` is how many items are.
#[derive(Clone, Copy)]
pub(super) struct Seen {
    pub oldest: usize,
    pub held: usize,
}
