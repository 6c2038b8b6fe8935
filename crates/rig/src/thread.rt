// A simulated thread.
use steps::call::Call;

// What the thread is at, and the number of its present call: the last that it began, until that is collected.
#[derive(Clone, Copy, Debug, PartialEq, Eq)]
pub struct Thread {
    pub call: Call,
    pub number: Option<u32>,
}

impl Thread {
    // It has no call.
    pub const IDLE: Thread = Thread {
        call: Call::Idle,
        number: None,
    };
}
