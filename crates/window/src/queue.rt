// The window queue over lent places.
ghost use Rattle.std.specs.Prelude.{◌≤◌, length};

use super::limit::WindowLimit;

mod calls;

// The first `len` places hold the elements, oldest first; the others are unused. The window is how far from the front a take may reach now.
// A slice that is lent, with how many places are in use beside it, and no Vec: this library takes nothing from the heap.
#[derive(Drop)]
pub struct WindowQueue<'a, E: Copy> {
    places: &'a mut [E],
    len: usize,
    window: u32,
    limit: WindowLimit,
    pub ghost within: { len ≤ length places.now },
    pub ghost at_least_1: { 1 ≤ window },
    pub ghost at_most_k: { window ≤ limit.k.number },
}
