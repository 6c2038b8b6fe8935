// The shape of the queue.
use bounded::Bounded;

// A segment has k slots, and there are so many segments.
#[derive(Clone, Copy)]
pub(super) struct Shape {
    pub k: Bounded<1, 64>,
    pub segments: Bounded<2, 64>,
}
