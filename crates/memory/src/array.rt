// A memory with up to 64 slots of its own.
ghost use Rattle.std.specs.Prelude.{◌≡◌, ◌≤◌, min, length, take};
ghost use Rattle.memory.specs.Mem.{front, empty};

use super::marked::Marked;
use super::slots::Slots;
use super::tag::swap_pair;

// The first `count` of the pairs are the slots. No Vec, but an array with a count beside it: a memory takes nothing from the heap.
#[derive(Drop)]
pub struct ArraySlots {
    pairs: [(u32, u32); 64],
    count: usize,
    ghost few: { count ≤ 64 },
    ghost whole: { length pairs ≡ 64 },
}

pub type ArrayMemory = Marked<ArraySlots>;

impl Marked<ArraySlots> {
    // As many empty slots as wished for, 64 where that is more.
    pub fn new(wish: usize) -> ArrayMemory
        ensures { front result.slots.count result.slots.pairs result.head result.tail ≡ empty (min wish 64) }
    {
        let slots = ArraySlots {
            pairs: [(0, 0); 64],
            count: wish.min(64),
        };
        Marked {
            slots,
            head: (0, 0),
            tail: (0, 0),
        }
    }
}

impl Slots for ArraySlots {
    ghost pairs = { λ s. take s.count s.pairs };

    fn count(&self) -> usize {
        self.count
    }

    fn clear(&mut self) {
        self.pairs = [(0, 0); 64];
    }

    fn read(&self, index: usize) -> Option<(u32, u32)> {
        self.pairs[..self.count].get(index).copied()
    }

    fn swap(&mut self, index: usize, expected: u32, new: u32) -> bool {
        // By index, since a slice of a field cannot be lent mutably (`get_mut`) where the struct has ghost fields.
        index < self.count && swap_pair(&mut self.pairs[index], expected, new)
    }
}
