// The lines that are printed of a stored history.
ghost use Rattle.std.specs.Prelude.{IfOk, Some, string_bytes};
ghost use Rattle.stored.specs.Printed.{replay_text, report_text, Prints};

use super::fault::Fault;
use super::report::{Replay, Report, reported};
use std::alloc::{AllocError, Global};
use std::fmt;

impl fmt::Display for Replay {
    ghost output = { λ r. Some (replay_text r) };

    fn fmt<W: fmt::Write>(&self, f: &mut fmt::Formatter<W>) -> fmt::Result {
        match *self {
            Replay::Whole => write!(f, "ok"),
            Replay::Stops(event) => write!(f, "{event}"),
            Replay::Overlap => write!(f, "overlap"),
        }
    }
}

impl fmt::Display for Report {
    ghost output = { λ r. Some (report_text r) };

    fn fmt<W: fmt::Write>(&self, f: &mut fmt::Formatter<W>) -> fmt::Result {
        let Report {
            events,
            verdict,
            replay,
        } = *self;
        write!(f, "events={events}\nverdict={verdict}\nreplay={replay}\n")
    }
}

// The text that is printed of an input: the report of its history, or why there is none.
pub fn printed(heap: Global, input: &[u8]) -> Result<String, AllocError>
    ensures { IfOk result (λ s. Prints input.now (string_bytes s)) }
{
    match reported(heap, input) {
        Ok(report) => format!(in heap; "{report}"),
        Err(Fault::Bad(bad)) => format!(in heap; "bad={bad}\n"),
        Err(Fault::Refused(refusal)) => format!(in heap; "refused={refusal}\n"),
        Err(Fault::Memory) => Err(AllocError),
    }
}
