// Quotes.
ghost use Rattle.std.specs.Prelude.{Some};
ghost use Rattle.scenario.specs.Quote.{side_word, quote_text, SideWritten, QuoteWritten};
ghost use Rattle.scenario.specs.Written.{Reads};

use super::quantity::Quantity;
use std::fmt;
use text::{number, split_at_byte};

#[derive(Clone, Copy, Debug, PartialEq, Eq)]
pub enum Side {
    Bid,
    Ask,
}

#[derive(Clone, Copy, Debug, PartialEq, Eq)]
pub struct Quote {
    pub instrument: u32,
    pub side: Side,
    pub quantity: Quantity,
}

impl fmt::Display for Side {
    ghost output = { λ side. Some (side_word side) };

    fn fmt<W: fmt::Write>(&self, f: &mut fmt::Formatter<W>) -> fmt::Result {
        match *self {
            Side::Bid => write!(f, "bid"),
            Side::Ask => write!(f, "ask"),
        }
    }
}

impl fmt::Display for Quote {
    ghost output = { λ quote. Some (quote_text quote) };

    fn fmt<W: fmt::Write>(&self, f: &mut fmt::Formatter<W>) -> fmt::Result {
        let Quote {
            instrument,
            side,
            quantity,
        } = *self;
        let number = quantity.get();
        write!(f, "{instrument}:{side}:{number}")
    }
}

impl Side {
    // The side that the bytes write.
    fn read(bytes: &[u8]) -> Option<Side>
        ensures { Reads (SideWritten bytes.now) result }
    {
        match bytes {
            b"bid" => Some(Side::Bid),
            b"ask" => Some(Side::Ask),
            _ => None,
        }
    }
}

impl Quote {
    // The quote that the bytes write.
    pub fn read(bytes: &[u8]) -> Option<Quote>
        ensures { Reads (QuoteWritten bytes.now) result }
    {
        let (instrument, rest) = split_at_byte(bytes, b':')?;
        let (side, quantity) = split_at_byte(rest, b':')?;
        let instrument = number(instrument)?;
        let side = Side::read(side)?;
        let quantity = Quantity::read(quantity)?;
        Some(Quote {
            instrument,
            side,
            quantity,
        })
    }
}
