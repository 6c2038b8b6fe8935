// Reading a stored history.
ghost use Rattle.text.specs.Reading.{left};
ghost use Rattle.stored.specs.Input.{EventsRead, Read};

use super::event_line::event;
use super::fault::Fault;
use history::event::Event;
use history::rows::MOST;
use std::alloc::Global;
use text::{Reader, header_number};

#[derive(Drop)]
pub struct Stored {
    pub k: u32,
    pub segments: u32,
    pub events: Vec<Event>,
}

// The events of the lines that are left. One event more than a history may have is enough to know that it is too long, so no more are read.
fn events(heap: Global, reader: &mut Reader) -> Result<Vec<Event>, Fault>
    ensures { EventsRead (left reader.old) reader.old.number result }
{
    let mut events = Vec::new(heap);
    while events.len() <= MOST {
        let Some(line) = reader.next_line()? else {
            return Ok(events);
        };
        let e = event(&line)?;
        events.push(e)?;
    }
    Ok(events)
}

// The stored history that the input writes.
pub fn read(heap: Global, input: &[u8]) -> Result<Stored, Fault>
    ensures { Read input.now result }
{
    let mut reader = Reader::new(input);
    let k = header_number(&mut reader, 1, b"k=")?;
    let segments = header_number(&mut reader, 2, b"segments=")?;
    let events = events(heap, &mut reader)?;
    Ok(Stored {
        k,
        segments,
        events,
    })
}
