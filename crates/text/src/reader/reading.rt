// Opening a reader, and handing on its lines.
ghost use Rattle.std.specs.Prelude.{◌≡◌, ◌<◌, length, nat_lt};
ghost use Rattle.text.specs.Lines.{FirstLine};
ghost use Rattle.text.specs.Reading.{Opens, NextLine};

use super::Reader;
use crate::cut::split_at_byte;
use crate::line::{BadLine, Line, Reason};

// A longer line is refused.
const MAX_LINE: usize = 80;

impl<'a> Reader<'a> {
    pub fn new(bytes: &'a [u8]) -> Reader<'a>
        ensures { Opens bytes.now result }
    {
        Reader {
            bytes,
            pos: 0,
            number: 0,
        }
    }

    // The next line, or `None` behind the last. The reader stays at a line that is too long.
    pub fn next_line(&mut self) -> Result<Option<Line<'a>>, BadLine>
        ensures { NextLine self.old result self.new }
    {
        let bytes = self.bytes;
        if self.pos >= bytes.len() {
            return Ok(None);
        }
        let line = first_line(&bytes[self.pos..]);
        let number = self.number + 1;
        if is_too_long(line) {
            return Err(BadLine {
                line: number,
                reason: Reason::TooLong,
            });
        }
        self.pos = bytes.len().min(self.pos + line.len() + 1);
        self.number = number;
        Ok(Some(Line {
            number,
            bytes: line,
        }))
    }
}

// The bytes before the first newline, or all of them.
fn first_line(bytes: &[u8]) -> &[u8]
    requires { 0 < length bytes.now }
    ensures { FirstLine bytes.now result.now }
{
    match split_at_byte(bytes, b'\n') {
        Some((line, _)) => line,
        None => bytes,
    }
}

fn is_too_long(line: &[u8]) -> bool
    ensures { result ≡ nat_lt 80 (length line.now) }
{
    line.len() > MAX_LINE
}
