// A memory of tagged slots and two markers, and two memories that keep its laws.
#![tactic(auto)]

ghost use Rattle.std.specs.Prelude.{◌≡◌, length};
ghost use Rattle.memory.specs.Mem.{Mem};
ghost use Rattle.memory.specs.Laws.{cleared, looked, agrees, swapped};

pub mod array;
pub mod marked;
pub mod packing;
pub mod place;
pub mod slots;
pub mod tag;
pub mod word;
mod words;

use place::Place;

pub trait Memory {
    ghost meaning: { Self → Mem };

    // The number of slots.
    fn count(&self) -> usize
        ensures { result ≡ length (meaning self.now).slots };

    // Empties every slot; both positions and every tag become 0.
    fn clear(&mut self)
        ensures { meaning self.new ≡ cleared (meaning self.old) };

    // The tag and the number at a place; nothing at a slot outside the count.
    fn read(&self, at: Place) -> Option<(u32, u32)>
        ensures { result ≡ looked (meaning self.now) at };

    // Puts a number at a place whose tag is the expected one and raises the tag; false, and nothing changes, elsewhere.
    fn swap(&mut self, at: Place, expected: u32, new: u32) -> bool
        ensures answer { result ≡ agrees (meaning self.old) at expected }
        ensures after { meaning self.new ≡ swapped (meaning self.old) at expected new };
}
