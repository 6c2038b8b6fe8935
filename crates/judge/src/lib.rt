// The judge of a history: the first event at which the queue broke its promise, with the lowest fault that it shows.
#![tactic(auto)]

mod answers;
pub mod fault;
mod flights;
pub mod judge;
mod judging;
pub mod row;
mod seen;
mod shape;
mod step;
pub mod theorems;
pub mod verdict;
pub mod verdict_text;
mod walk;
