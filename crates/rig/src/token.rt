// The token of a call that was begun.
ghost use Rattle.std.specs.Prelude.{◌≡◌};

use super::refusal::Refusal;

// It cannot be copied or let go: whoever began the call collects it, or discards the token once the rig is closed.
pub struct CallToken {
    pub(crate) thread: u32,
    pub(crate) number: u32,
}

impl CallToken {
    pub fn thread(&self) -> u32
        ensures { result ≡ self.now.thread }
    {
        self.thread
    }

    // The number of the call, from 1 over the whole rig.
    pub fn number(&self) -> u32
        ensures { result ≡ self.now.number }
    {
        self.number
    }
}

// Why a token was not taken, and the token.
pub struct Declined {
    pub refusal: Refusal,
    pub token: CallToken,
}
