// What is reported of a stored history.
ghost use Rattle.std.specs.Prelude.{◌≡◌, length};
ghost use Rattle.history.specs.Calls.{puts_before};
ghost use Rattle.stored.specs.Report.{ReplayGiven, Reported};

use super::fault::Fault;
use super::read::read;
use history::event::{Event, Kind};
use history::refusal::Refusal;
use history::rows::MOST;
use judge::judge::judge;
use judge::row::Row;
use judge::verdict::Verdict;
use replay::replay::replay;
use std::alloc::Global;

// Stops names the first event that the window queue does not allow, counted from 0.
#[derive(Clone, Copy, Debug, PartialEq, Eq)]
pub enum Replay {
    Whole,
    Stops(usize),
    Overlap,
}

#[derive(Clone, Copy, Debug, PartialEq, Eq)]
pub struct Report {
    pub events: usize,
    pub verdict: Verdict,
    pub replay: Replay,
}

// The replay of a history; calls that overlap are an answer here.
fn replayed(history: &[Event], k: u32, rows: &mut [u32]) -> Result<Replay, Refusal>
    ensures { ReplayGiven k history.now (length rows.old) result }
{
    match replay(history, k, rows) {
        Ok(None) => Ok(Replay::Whole),
        Ok(Some(event)) => Ok(Replay::Stops(event)),
        Err(Refusal::Overlap) => Ok(Replay::Overlap),
        Err(refusal) => Err(refusal),
    }
}

// The number of puts begun: the judge needs a row for each, and no more are made.
fn puts_in(history: &[Event]) -> usize
    ensures { result ≡ puts_before history.now (length history.now) }
{
    let mut puts = 0;
    for event in history {
        if event.kind == Kind::PutBegun {
            puts += 1;
        }
    }
    puts
}

// The report of the stored history that the input writes.
pub fn reported(heap: Global, input: &[u8]) -> Result<Report, Fault>
    ensures { Reported input.now result }
{
    let stored = read(heap, input)?;
    let verdict = {
        let mut rows = vec![in heap; Row::BLANK; puts_in(&stored.events).min(MOST)]?;
        judge(&stored.events, stored.k, stored.segments, &mut rows)?
    };
    let mut places = vec![in heap; 0u32; MOST]?;
    let replay = replayed(&stored.events, stored.k, &mut places)?;
    Ok(Report {
        events: stored.events.len(),
        verdict,
        replay,
    })
}
