#![tactic(auto)]

// The window queue and the replay at the edges of what they allow.
#[cfg(test)]
mod queue;
#[cfg(test)]
mod replaying;
