// The judge.
ghost use Rattle.std.specs.Prelude.{◌≡◌, ℕ, ◌<◌, ◌≤◌, length, slice_index_or};
ghost use Rattle.history.specs.Calls.{puts_before};
ghost use Rattle.history.specs.Limits.{Short};
ghost use Rattle.history.specs.WellFormed.{Formed};
ghost use Rattle.judge.specs.Answers.{Answered, RowsLeft};
ghost use Rattle.judge.specs.Rows.{blank};
ghost use Rattle.judge.specs.Verdicts.{Judged};

use super::flights::Flights;
use super::judging::Judging;
use super::row::Row;
use super::seen::Seen;
use super::shape::Shape;
use super::verdict::Verdict;
use bounded::Bounded;
use history::asked::ask;
use history::event::Event;
use history::refusal::Refusal;
use history::rows::clear;

// The events in turn, until one shows a fault.
fn run(history: &[Event], shape: Shape, rows: &mut [Row]) -> Verdict
    requires short { Short history.now }
    requires formed { Formed history.now }
    requires fit { puts_before history.now (length history.now) ≤ length rows.old }
    requires blank { (m : ℕ) → m < length rows.old → slice_index_or rows.old m blank ≡ blank }
    ensures { Judged shape.k.number shape.segments.number history.now result }
{
    let seen = Seen { oldest: 0, held: 0 };
    let mut judging = Judging {
        history,
        shape,
        rows,
        seen,
    };
    let mut flights = Flights::new();
    for (i, event) in history.iter().enumerate() {
        if let Some(fault) = judging.step(i, *event, &flights) {
            return Verdict::Fault(fault, i);
        }
        flights.note(history, i);
    }
    Verdict::Sound
}

// Sound, or the first event that shows a fault with the lowest that it shows; the rows in use are then blank.
// Or a refusal; the rows are then as they were.
pub fn judge(history: &[Event], k: u32, segments: u32, rows: &mut [Row]) -> Result<Verdict, Refusal>
    ensures answer { Answered k segments history.now (length rows.old) result }
    ensures rows { RowsLeft rows.old rows.new result }
{
    let shape = Shape {
        k: Bounded::new(k).ok_or(Refusal::SegmentSize)?,
        segments: Bounded::new(segments).ok_or(Refusal::Segments)?,
    };
    // A put is an event, so no more rows than events are worked on: only those are blanked before the work, and all of them after it.
    let asked = ask(history, rows.len())?;
    let used = asked.min(history.len());
    clear(&mut rows[..used], Row::BLANK);
    let verdict = run(history, shape, &mut rows[..used]);
    clear(rows, Row::BLANK);
    Ok(verdict)
}
