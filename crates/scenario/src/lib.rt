// Scenarios: their lines read one at a time.
#![tactic(auto)]

pub mod command;
pub mod element;
pub mod header;
pub mod quantity;
pub mod quote;
#[cfg(test)]
mod tests;
