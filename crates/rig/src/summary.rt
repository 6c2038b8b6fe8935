// What a closed rig did.
use super::token::CallToken;

#[derive(Clone, Copy, Debug, PartialEq, Eq)]
pub struct Summary {
    pub events: usize,
    pub items: u32,
    pub steps: u32,
    pub in_flight: usize,
}

impl Summary {
    // Spends a token that is left now that the rig is closed.
    pub fn discard(&self, token: CallToken) {
        let CallToken {
            thread: _,
            number: _,
        } = token;
    }
}
