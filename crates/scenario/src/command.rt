// The command lines.
ghost use Rattle.std.specs.Prelude.{◌≡◌};
ghost use Rattle.scenario.specs.Written.{Reads};
ghost use Rattle.scenario.specs.Command.{ThreadAnd, TurnWritten, word, Arguments, Writes, ThreadRead, CommandRead};

use super::element::Element;
use text::{BadLine, Line, Reason, number, split_at_byte};

// A thread, and the start number of its step.
#[derive(Clone, Copy, Debug, PartialEq, Eq)]
pub struct Turn {
    pub thread: u32,
    pub start: u32,
}

// A put, a take and a collect are of a thread; a step may have none.
#[derive(Clone, Copy, Debug, PartialEq, Eq)]
pub enum Command<E> {
    Put(u32, E),
    Take(u32),
    Step(Option<Turn>),
    Run(Turn),
    Collect(u32),
}

// The thread before the first colon, and what is behind it.
fn thread_first(bytes: &[u8]) -> Option<(u32, &[u8])>
    ensures { ThreadRead bytes.now result }
{
    let (thread, rest) = split_at_byte(bytes, b':')?;
    Some((number(thread)?, rest))
}

fn put<E: Element>(bytes: &[u8]) -> Option<(u32, E)>
    ensures { Reads (λ p. ThreadAnd bytes.now p.0 (λ rest. E.written rest p.1)) result }
{
    let (thread, rest) = thread_first(bytes)?;
    Some((thread, E::read(rest)?))
}

impl Turn {
    fn read(bytes: &[u8]) -> Option<Turn>
        ensures { Reads (TurnWritten bytes.now) result }
    {
        let (thread, rest) = thread_first(bytes)?;
        let start = number(rest)?;
        Some(Turn { thread, start })
    }
}

// The command with this word, and with what follows it.
fn with_word<E: Element>(name: &[u8], bytes: &[u8]) -> Option<Command<E>>
    ensures { Reads (λ c. (word c ≡ name.now) × Arguments E.written bytes.now c) result }
{
    match name {
        b"put" => {
            let (thread, element) = put(bytes)?;
            Some(Command::Put(thread, element))
        }
        b"take" => Some(Command::Take(number(bytes)?)),
        b"step" => match bytes {
            b"flat" => Some(Command::Step(None)),
            _ => Some(Command::Step(Some(Turn::read(bytes)?))),
        },
        b"run" => Some(Command::Run(Turn::read(bytes)?)),
        b"collect" => Some(Command::Collect(number(bytes)?)),
        _ => None,
    }
}

// The command that the bytes write.
fn written<E: Element>(bytes: &[u8]) -> Option<Command<E>>
    ensures { Reads (Writes E.written bytes.now) result }
{
    let (name, rest) = split_at_byte(bytes, b'=')?;
    with_word(name, rest)
}

impl<E: Element> Command<E> {
    // The command that a line writes.
    pub fn read(line: &Line) -> Result<Command<E>, BadLine>
        ensures { CommandRead E.written line.now.bytes.now line.now.number result }
    {
        let Some(command) = written(line.bytes) else {
            return Err(line.bad(Reason::Unreadable));
        };
        Ok(command)
    }
}
