// Who makes the next step.

// A thread, or none, and the start number of a search that begins with this step.
#[derive(Clone, Copy, Debug, PartialEq, Eq)]
pub struct Pick {
    pub thread: Option<u32>,
    pub start: u32,
}
