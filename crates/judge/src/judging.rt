// The judge at work.
ghost use Rattle.std.specs.Prelude.{◌≤◌, length};
ghost use Rattle.history.specs.Calls.{puts_before};
ghost use Rattle.history.specs.Limits.{Short};
ghost use Rattle.history.specs.WellFormed.{Formed};

use super::row::Row;
use super::seen::Seen;
use super::shape::Shape;
use history::event::Event;

// A well-formed history, with a working row for each put begun in it, and what is known of its items so far.
#[derive(Drop)]
pub(super) struct Judging<'a> {
    pub history: &'a [Event],
    pub shape: Shape,
    pub rows: &'a mut [Row],
    pub seen: Seen,
    pub ghost short: { Short history.now },
    pub ghost formed: { Formed history.now },
    pub ghost fit: { puts_before history.now (length history.now) ≤ length rows.now },
}
