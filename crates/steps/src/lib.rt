// The steps of a bounded k-FIFO queue: its configuration, and the two step machines of its threads, put and take.
// No memory is touched here: a step says which access it makes, and moves on by what the access returned.
#![tactic(auto)]

pub mod access;
pub mod answer;
pub mod call;
pub mod check_step;
mod checking;
pub mod config;
pub mod config_refusal;
pub mod kept;
pub mod law;
pub mod put_step;
mod putting;
mod ring;
pub mod search;
pub mod stepping;
mod tag;
pub mod take_step;
mod taking;
mod turn;
