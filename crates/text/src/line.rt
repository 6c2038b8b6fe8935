// A line of the input, and why one is refused.
ghost use Rattle.std.specs.Prelude.{◌≡◌, Some};
ghost use Rattle.text.specs.Refusal.{code, refusal, bad_line_text};
ghost use Rattle.text.specs.Cut.{Follows};

use std::error::Error;
use std::fmt;

// A line of the input, numbered from 1.
#[derive(Clone, Copy, Debug, PartialEq, Eq)]
pub struct Line<'a> {
    pub number: usize,
    pub bytes: &'a [u8],
}

#[derive(Clone, Copy, Debug, PartialEq, Eq)]
pub enum Reason {
    Unreadable,
    NotDue,
    TooLong,
}

impl From<Reason> for u32 {
    ghost from_gives = { λ reason n. n ≡ code reason };

    fn from(reason: Reason) -> u32 {
        match reason {
            Reason::Unreadable => 19,
            Reason::NotDue => 20,
            Reason::TooLong => 21,
        }
    }
}

// The line that is refused, and why.
#[derive(Clone, Copy, Debug, PartialEq, Eq)]
pub struct BadLine {
    pub line: usize,
    pub reason: Reason,
}

impl fmt::Display for BadLine {
    ghost output = { λ bad. Some (bad_line_text bad) };

    fn fmt<W: fmt::Write>(&self, f: &mut fmt::Formatter<W>) -> fmt::Result {
        let number = u32::from(self.reason);
        write!(f, "{}:{number}", self.line)
    }
}

impl Error for BadLine {}

impl<'a> Line<'a> {
    // The refusal of this line.
    pub fn bad(&self, reason: Reason) -> BadLine
        ensures { result ≡ refusal self.now.number reason }
    {
        BadLine {
            line: self.number,
            reason,
        }
    }

    // What follows `key` at the front of the line.
    pub fn after(&self, key: &[u8]) -> Option<&'a [u8]>
        ensures { Follows key.now self.now.bytes.now result }
    {
        self.bytes.strip_prefix(key)
    }
}
