// A memory: a store of slots, and the two markers beside it.
ghost use Rattle.memory.specs.Mem.{with_markers};

use super::Memory;
use super::place::Place;
use super::slots::Slots;
use super::tag::swap_pair;

#[derive(Drop)]
pub struct Marked<S> {
    pub(crate) slots: S,
    pub(crate) head: (u32, u32),
    pub(crate) tail: (u32, u32),
}

impl<S: Slots> Memory for Marked<S> {
    ghost meaning = { λ s. with_markers (S.pairs s.slots) s.head s.tail };

    fn count(&self) -> usize {
        self.slots.count()
    }

    fn clear(&mut self) {
        self.slots.clear();
        self.head = (0, 0);
        self.tail = (0, 0);
    }

    fn read(&self, at: Place) -> Option<(u32, u32)> {
        match at {
            Place::Slot(i) => self.slots.read(i),
            Place::Head => Some(self.head),
            Place::Tail => Some(self.tail),
        }
    }

    fn swap(&mut self, at: Place, expected: u32, new: u32) -> bool {
        match at {
            Place::Slot(i) => self.slots.swap(i, expected, new),
            Place::Head => swap_pair(&mut self.head, expected, new),
            Place::Tail => swap_pair(&mut self.tail, expected, new),
        }
    }
}
