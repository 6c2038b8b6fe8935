// Histories: what an event is, which histories are well formed, and why one is refused.
#![tactic(auto)]

pub mod asked;
pub mod event;
pub mod formed;
pub mod refusal;
pub mod rows;
pub mod threads;
