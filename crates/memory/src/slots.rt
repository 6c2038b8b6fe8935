// A store of slots, without the markers of a memory. Pairs are plain, as a memory's read answers them.
ghost use Rattle.std.specs.Prelude.{◌≡◌, ℕ, List, length, replicate};
ghost use Rattle.memory.specs.Laws.{slot_looked, slot_agrees, slots_swapped};

pub trait Slots: Drop {
    // The tag and the number of each slot.
    ghost pairs: { Self → List (ℕ × ℕ) };

    // The number of slots.
    fn count(&self) -> usize
        ensures { result ≡ length (pairs self.now) };

    // Empties every slot; every tag becomes 0.
    fn clear(&mut self)
        ensures { pairs self.new ≡ replicate (length (pairs self.old)) (0, 0) };

    // The tag and the number in a slot; nothing outside the count.
    fn read(&self, index: usize) -> Option<(u32, u32)>
        ensures { result ≡ slot_looked (pairs self.now) index };

    // Puts a number into a slot whose tag is the expected one and raises the tag; false, and nothing changes, elsewhere.
    fn swap(&mut self, index: usize, expected: u32, new: u32) -> bool
        ensures answer { result ≡ slot_agrees (pairs self.old) index expected }
        ensures after { pairs self.new ≡ slots_swapped (pairs self.old) index expected new };
}
