// A search through a segment, one probe a step.

// Once it has begun: how many probes were made, and the place of the last of them.
#[derive(Clone, Copy, Debug, PartialEq, Eq)]
pub enum Search {
    Fresh,
    Begun { made: u32, last: u32 },
}
