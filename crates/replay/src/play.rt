// Events played on the window queue.
ghost use Rattle.window.specs.Places.{content, queue};
ghost use Rattle.replay.specs.Playing.{PlaceOf, Plays};

use history::event::{Event, Kind};
use window::queue::WindowQueue;

// A place within the window where an item stands, counted from 1.
fn place_of(waiting: &WindowQueue<u32>, item: u32) -> Option<usize>
    ensures { PlaceOf (queue (content waiting.now)) item result }
{
    // No `find`: tried, and it is not proved that a place which its closure passes over does not have the item.
    for i in 1..=waiting.window() as usize {
        if waiting.at(i) == Some(item) {
            return Some(i);
        }
    }
    None
}

// Plays an event on the queue, but for acceptances, which are fed to it apart; false where the event is not allowed, and the queue then stays.
// A yes or no, and no Result: nobody asks why the queue does not allow an event.
pub fn play(waiting: &mut WindowQueue<u32>, event: Event) -> bool
    ensures { Plays event.kind event.item (content waiting.old) result (content waiting.new) }
{
    match event.kind {
        Kind::HandedOut => match place_of(waiting, event.item) {
            Some(i) => waiting.take_at(i).is_ok(),
            None => false,
        },
        Kind::Empty => waiting.take_at(0).is_ok(),
        _ => true,
    }
}
