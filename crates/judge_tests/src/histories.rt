// Histories from short texts: a word for each event, with a letter for its kind and a digit each for its thread and its item.
use history::event::{Event, Kind};
use std::alloc::Global;
use std::test::Fail;

// The letters: put begun, take begun, accepted, full, out, empty. No TryFrom, since neither type is this crate's.
fn kind(letter: u8) -> Result<Kind, Fail> {
    match letter {
        b'p' => Ok(Kind::PutBegun),
        b't' => Ok(Kind::TakeBegun),
        b'a' => Ok(Kind::Accepted),
        b'f' => Ok(Kind::Full),
        b'o' => Ok(Kind::HandedOut),
        b'e' => Ok(Kind::Empty),
        _ => Err(Fail::new("no kind of event has this letter")),
    }
}

fn digit(letter: u8) -> Result<u32, Fail> {
    char::from(letter)
        .to_digit(10)
        .ok_or_else(|| Fail::new("this is no digit"))
}

pub fn told(heap: Global, text: &str) -> Result<Vec<Event>, Fail> {
    let mut events = Vec::new(heap);
    for word in text.as_bytes().chunks(4) {
        let [letter, thread, item, ..] = *word else {
            return Err(Fail::new("a word is too short"));
        };
        events.push(Event {
            kind: kind(letter)?,
            thread: digit(thread)?,
            item: digit(item)?,
        })?;
    }
    Ok(events)
}

const EMPTY_TAKE: [Event; 2] = [
    Event {
        kind: Kind::TakeBegun,
        thread: 0,
        item: 0,
    },
    Event {
        kind: Kind::Empty,
        thread: 0,
        item: 0,
    },
];

// So many takes in turn, each answered empty, and one more begun where the number of events is odd.
pub fn empty_takes(heap: Global, length: usize) -> Result<Vec<Event>, Fail> {
    let mut events = EMPTY_TAKE.repeat(heap, length / 2)?;
    if length % 2 == 1 {
        events.push(EMPTY_TAKE[0])?;
    }
    Ok(events)
}
