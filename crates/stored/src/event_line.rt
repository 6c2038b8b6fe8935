// An event's line.
ghost use Rattle.std.specs.Prelude.{◌≡◌};
ghost use Rattle.stored.specs.Format.{word, KeyOf, NumbersRead, EventRead};

use history::event::{Event, Kind};
use text::{BadLine, Line, Reason, number, split_at_byte};

const KINDS: [Kind; 6] = [
    Kind::PutBegun,
    Kind::TakeBegun,
    Kind::Accepted,
    Kind::Full,
    Kind::HandedOut,
    Kind::Empty,
];

// The word that the lines of a kind begin with.
fn word(kind: Kind) -> &'static [u8]
    ensures { result.now ≡ word kind }
{
    match kind {
        Kind::PutBegun => b"put=",
        Kind::TakeBegun => b"take=",
        Kind::Accepted => b"accepted=",
        Kind::Full => b"full=",
        Kind::HandedOut => b"item=",
        Kind::Empty => b"empty=",
    }
}

// The kind that a line begins with, and what follows the word. A loop, since what `find_map` passes over takes a longer proof.
fn kind_of<'a>(line: &Line<'a>) -> Option<(Kind, &'a [u8])>
    ensures { KeyOf line.now.bytes.now result }
{
    for kind in KINDS {
        if let Some(rest) = line.after(word(kind)) {
            return Some((kind, rest));
        }
    }
    None
}

// A thread and an item, with a colon between them. Each is taken by let .. else, a rule of the project (docs/DECISIONS.md), so that its refusal stands beside it.
fn pair(line: &Line, bytes: &[u8]) -> Result<(u32, u32), BadLine>
    ensures { NumbersRead Kind.PutBegun bytes.now line.now.number result }
{
    let Some((before, behind)) = split_at_byte(bytes, b':') else {
        return Err(line.bad(Reason::Unreadable));
    };
    let Some(thread) = number(before) else {
        return Err(line.bad(Reason::Unreadable));
    };
    let Some(item) = number(behind) else {
        return Err(line.bad(Reason::Unreadable));
    };
    Ok((thread, item))
}

// A thread alone; the item is 0.
fn alone(line: &Line, bytes: &[u8]) -> Result<(u32, u32), BadLine>
    ensures { NumbersRead Kind.Empty bytes.now line.now.number result }
{
    let Some(thread) = number(bytes) else {
        return Err(line.bad(Reason::Unreadable));
    };
    Ok((thread, 0))
}

// The thread and the item behind the word of a kind.
fn numbers(line: &Line, kind: Kind, bytes: &[u8]) -> Result<(u32, u32), BadLine>
    ensures { NumbersRead kind bytes.now line.now.number result }
{
    match kind {
        Kind::TakeBegun | Kind::Empty => alone(line, bytes),
        Kind::PutBegun | Kind::Accepted | Kind::Full | Kind::HandedOut => pair(line, bytes),
    }
}

// The event that a line writes. No TryFrom, since neither type is this crate's.
pub fn event(line: &Line) -> Result<Event, BadLine>
    ensures { EventRead line.now.bytes.now line.now.number result }
{
    let Some((kind, rest)) = kind_of(line) else {
        return Err(line.bad(Reason::Unreadable));
    };
    let (thread, item) = numbers(line, kind, rest)?;
    Ok(Event { kind, thread, item })
}
