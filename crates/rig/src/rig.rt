// The rig itself: its threads and what they have done.
ghost use Rattle.std.specs.Prelude.{◌≡◌, ◌≤◌, length};

use super::thread::Thread;
use steps::config::Config;

mod beginning;
mod closing;
mod collecting;
mod flights;
mod opening;
mod stepping;

// Room for the most threads that there can be, and no Vec: a rig takes nothing from the heap.
// The memory and the tables are no fields: they stay the caller's, who lends them to each call anew.
// It is closed and not let go, so that the tokens that are left have something to be discarded against.
pub struct Rig {
    config: Config,
    threads: [Thread; 64],
    // How many calls and how many items were begun, events written, steps made.
    begun: u32,
    items: u32,
    events: usize,
    steps: u32,
    ghost whole: { length threads ≡ 64 },
    ghost numbered: { items ≤ begun },
    ghost told: { begun ≤ events },
    ghost few: { events ≤ 65536 },
}
