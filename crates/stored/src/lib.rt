// Stored histories: their text read, and the answers about them.
#![tactic(auto)]

pub mod event_line;
pub mod fault;
pub mod printed;
pub mod read;
pub mod report;
