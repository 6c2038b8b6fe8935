// The replay.
ghost use Rattle.std.specs.Prelude.{◌≡◌, ◌<◌, ◌≤◌, length};
ghost use Rattle.window.specs.Places.{content};
ghost use Rattle.replay.specs.Answer.{Replays, Answered, Left};
ghost use Rattle.replay.specs.Playing.{Ready, Playing, Fed};

use super::alone::one_at_a_time;
use super::play::play;
use history::asked::ask;
use history::event::{Event, Kind};
use history::refusal::Refusal;
use history::rows::clear;
use window::limit::WindowLimit;
use window::queue::WindowQueue;

// Appends the items that were accepted from event `fed` on, before event `i`, until the queue has as many as a take may reach now.
// So the queue never holds more than k items, and a take moves no more than k: the items behind them wait in the history itself.
// No struct holds the queue, the history and `fed`: only this function moves `fed` on, and in a field it would be counted up by hand.
fn feed(waiting: &mut WindowQueue<u32>, history: &[Event], fed: usize, i: usize) -> usize
    requires within { i < length history.now }
    requires playing { Playing (content waiting.old).k history.now i fed (content waiting.old) }
    ensures { Fed (content waiting.old).k history.now i result (content waiting.new) }
{
    for (ahead, event) in history[fed..i].iter().enumerate() {
        if waiting.len() >= waiting.window() as usize {
            return fed + ahead;
        }
        if event.kind == Kind::Accepted {
            let Ok(()) = waiting.append(event.item) else {
                unreachable()
            };
        }
    }
    i
}

// The events in turn, until one is not allowed.
fn run(history: &[Event], limit: WindowLimit, rows: &mut [u32]) -> Option<usize>
    requires { Ready limit.k.number history.now (length rows.old) }
    ensures { Replays limit.k.number history.now result }
{
    let mut waiting = WindowQueue::new(rows, limit);
    let mut fed = 0;
    for (i, event) in history.iter().enumerate() {
        fed = feed(&mut waiting, history, fed, i);
        if !play(&mut waiting, *event) {
            return Some(i);
        }
    }
    None
}

// The first event of a history that the window queue does not allow at window k, if there is one; the rows in use are then zero. Or a refusal, and
// the rows then stay.
pub fn replay(history: &[Event], k: u32, rows: &mut [u32]) -> Result<Option<usize>, Refusal>
    ensures answer { Answered k history.now (length rows.old) result }
    ensures rows { Left rows.old result rows.new }
{
    let limit = WindowLimit::new(k).ok_or(Refusal::SegmentSize)?;
    let used = ask(history, rows.len())?;
    if !one_at_a_time(history) {
        return Err(Refusal::Overlap);
    }
    let stop = run(history, limit, &mut rows[..used]);
    clear(rows, 0);
    Ok(stop)
}
