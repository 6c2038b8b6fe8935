// The replay of a history without overlap against the window queue.
#![tactic(auto)]

mod alone;
mod play;
pub mod replay;
pub mod theorems;
