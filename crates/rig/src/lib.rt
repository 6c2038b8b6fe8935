// The rig: a bounded k-FIFO queue played for simulated threads, one memory access at a time.
#![tactic(auto)]

mod performing;
pub mod pick;
pub mod progress;
pub mod refusal;
pub mod reply;
pub mod rig;
pub mod summary;
pub mod thread;
pub mod token;
