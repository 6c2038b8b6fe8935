// What a scenario puts into the queue.
ghost use Rattle.std.specs.Prelude.{ℕ, List};
ghost use Rattle.scenario.specs.Written.{Reads, Number32};
ghost use Rattle.scenario.specs.Quote.{QuoteWritten};

use super::quote::Quote;
use std::fmt::Display;
use text::number;

pub trait Element: Copy + Display {
    // Holds of the bytes that write an element, and that element.
    ghost written: { List ℕ → Self → Type 0 };

    // The element that the bytes write.
    fn read(bytes: &[u8]) -> Option<Self>
        ensures { Reads (written bytes.now) result };
}

impl Element for u32 {
    ghost written = { Number32 };

    fn read(bytes: &[u8]) -> Option<u32> {
        number(bytes)
    }
}

impl Element for Quote {
    ghost written = { QuoteWritten };

    fn read(bytes: &[u8]) -> Option<Quote> {
        Quote::read(bytes)
    }
}
