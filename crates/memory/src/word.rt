// A memory over words that a caller lends.
ghost use Rattle.std.specs.Prelude.{◌≡◌};
ghost use Rattle.memory.specs.Words.{word_pairs, words_mean, word_meaning};
ghost use Rattle.memory.specs.Consequences.{Consequences};

use super::marked::Marked;
use super::slots::Slots;
use super::words::{read_word, slots_in, swap_word, wipe};

#[derive(Drop)]
pub struct WordSlots<'a> {
    words: &'a mut [u64],
}

pub type WordMemory<'a> = Marked<WordSlots<'a>>;

impl<'a> Marked<WordSlots<'a>> {
    // The slots are as the words have them; both markers stand at position 0 with tag 0.
    pub fn new(words: &'a mut [u64]) -> WordMemory<'a>
        ensures means { word_meaning result ≡ words_mean words.old (0, 0) (0, 0) }
        ensures untouched { result.slots.words.now ≡ words.old }
        ensures laws { Consequences }
    {
        Marked {
            slots: WordSlots { words },
            head: (0, 0),
            tail: (0, 0),
        }
    }
}

impl<'a> Slots for WordSlots<'a> {
    ghost pairs = { λ s. word_pairs s.words.now };

    fn count(&self) -> usize {
        slots_in(self.words)
    }

    fn clear(&mut self) {
        wipe(self.words);
    }

    fn read(&self, index: usize) -> Option<(u32, u32)> {
        read_word(self.words, index)
    }

    fn swap(&mut self, index: usize, expected: u32, new: u32) -> bool {
        swap_word(self.words, index, expected, new)
    }
}
