// The largest window.
ghost use Rattle.std.specs.Prelude.{◌≡◌, ◌≤◌, MatchOption};

use bounded::Bounded;

// k, from 1 to 64: a take reaches at most k places from the front.
#[derive(Clone, Copy, Debug, PartialEq, Eq)]
pub struct WindowLimit {
    k: Bounded<1, 64>,
}

impl WindowLimit {
    // Nothing where k is not 1 to 64.
    pub fn new(k: u32) -> Option<WindowLimit>
        ensures { MatchOption result ((1 ≤ k) × (k ≤ 64) → ⊥) (λ limit. (limit.k.number ≡ k) × ((1 ≤ k) × (k ≤ 64))) }
    {
        Some(WindowLimit {
            k: Bounded::new(k)?,
        })
    }

    pub fn k(self) -> u32
        ensures { result ≡ self.k.number }
    {
        self.k.get()
    }
}
