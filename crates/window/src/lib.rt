// The window queue: a first-in first-out queue that may hand out, in place of its oldest element, one of the next few.
#![tactic(auto)]

pub mod limit;
mod places;
pub mod queue;
pub mod refusal;
