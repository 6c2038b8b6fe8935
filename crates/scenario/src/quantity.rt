// Quantities: whole numbers that are kept within bounds by their type.
ghost use Rattle.std.specs.Prelude.{◌≡◌, ◌≤ℤ◌, pos, neg_ℤ, MatchOption};
ghost use Rattle.scenario.specs.Written.{UnsignedRead};

use text::number;

const MOST: i32 = 1_000_000;

// From -1,000,000 to 1,000,000.
#[derive(Clone, Copy, Debug, PartialEq, Eq)]
pub struct Quantity {
    number: i32,
    pub ghost least: { neg_ℤ (pos 1000000) ≤ℤ number },
    pub ghost most: { number ≤ℤ pos 1000000 },
}

impl Quantity {
    // Nothing where the number is out of bounds.
    pub fn new(number: i32) -> Option<Quantity>
        ensures { MatchOption result ((neg_ℤ (pos 1000000) ≤ℤ number) × (number ≤ℤ pos 1000000) → ⊥) (λ quantity. quantity.number ≡ number) }
    {
        if number < -MOST || number > MOST {
            return None;
        }
        Some(Quantity { number })
    }

    pub fn get(self) -> i32
        ensures { result ≡ self.number }
    {
        self.number
    }
}

impl Quantity {
    ghost use Rattle.scenario.specs.Written.{Reads};
    ghost use Rattle.scenario.specs.Quote.{QuantityWritten};

    // The quantity that the bytes write.
    pub fn read(bytes: &[u8]) -> Option<Quantity>
        ensures { Reads (QuantityWritten bytes.now) result }
    {
        match bytes.strip_prefix(b"-") {
            Some(digits) => Quantity::new(-unsigned(digits)?),
            None => Quantity::new(unsigned(bytes)?),
        }
    }
}

// The number that the bytes write without a sign.
fn unsigned(bytes: &[u8]) -> Option<i32>
    ensures { UnsignedRead bytes.now result }
{
    i32::try_from(number(bytes)?).ok()
}
