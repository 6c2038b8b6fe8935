// What is asked of every history before it is judged or replayed.
ghost use Rattle.history.specs.Asked.{Asked};

use super::event::Event;
use super::formed::puts_begun;
use super::refusal::Refusal;
use super::rows::MOST;

// How many of the working rows are used, or why the history is refused.
pub fn ask(history: &[Event], rows: usize) -> Result<usize, Refusal>
    ensures { Asked history.now rows result }
{
    if history.len() > MOST {
        return Err(Refusal::TooLong);
    }
    let puts = puts_begun(history).map_err(Refusal::Malformed)?;
    let used = rows.min(MOST);
    if puts > used {
        return Err(Refusal::TooFewRows);
    }
    Ok(used)
}
