// Numbers that are kept within bounds by their type.
#![tactic(auto)]

ghost use Rattle.std.specs.Prelude.{◌≡◌, ◌≤◌, MatchOption};

// A number from LEAST to MOST.
#[derive(Clone, Copy, Debug, PartialEq, Eq)]
pub struct Bounded<const LEAST: u32, const MOST: u32> {
    number: u32,
    pub ghost least: { LEAST ≤ number },
    pub ghost most: { number ≤ MOST },
}

impl<const LEAST: u32, const MOST: u32> Bounded<LEAST, MOST> {
    // Nothing where the number is out of bounds.
    pub fn new(number: u32) -> Option<Bounded<LEAST, MOST>>
        ensures { MatchOption result ((LEAST ≤ number) × (number ≤ MOST) → ⊥) (λ bounded. bounded.number ≡ number) }
    {
        if !(LEAST..=MOST).contains(&number) {
            return None;
        }
        Some(Bounded { number })
    }

    pub fn get(self) -> u32
        ensures { result ≡ self.entry.number }
    {
        self.number
    }
}

#[cfg(test)]
mod tests {
    use super::*;

    #[test]
    fn both_ends_are_within(rt: HostRuntime) {
        assert_eq!(rt; Bounded::<2, 64>::new(1), None);
        assert_eq!(rt; Bounded::<2, 64>::new(2).map(Bounded::get), Some(2));
        assert_eq!(rt; Bounded::<2, 64>::new(64).map(Bounded::get), Some(64));
        assert_eq!(rt; Bounded::<2, 64>::new(65), None);
    }
}
