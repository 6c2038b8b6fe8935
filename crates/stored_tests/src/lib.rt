#![tactic(auto)]

// Inputs with the text that is printed of them.
#[cfg(test)]
mod tests;
