#![tactic(auto)]

// The two memories at the edges of their laws.
#[cfg(test)]
mod laws;
#[cfg(test)]
mod words;
