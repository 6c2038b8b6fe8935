#![tactic(auto)]

// The judge on small histories, and at its limits.
#[cfg(test)]
mod expect;
#[cfg(test)]
mod histories;
#[cfg(test)]
mod limits;
#[cfg(test)]
mod refusals;
#[cfg(test)]
mod verdicts;
