// Words as slots: up to 4,096 of those lent are slots, and the words behind them are neither read nor written.
// Functions of the words alone, since the laws do not speak of the words behind the last slot and these contracts do.
ghost use Rattle.std.specs.Prelude.{◌≡◌};
ghost use Rattle.memory.specs.Words.{used, wiped, word_looked, word_agrees, words_swapped};

use super::packing::{pack, unpack};
use super::tag::swap_pair;

// How many of the words are slots.
pub fn slots_in(words: &[u64]) -> usize
    ensures { result ≡ used words.now }
{
    words.len().min(4096)
}

// Zero in every slot.
pub fn wipe(words: &mut [u64])
    ensures { words.new ≡ wiped (used words.old) words.old }
{
    let used = slots_in(words);
    words[..used].fill(0);
}

// The pair in a word; nothing where it is no slot.
pub fn read_word(words: &[u64], i: usize) -> Option<(u32, u32)>
    ensures { result ≡ word_looked words.now i }
{
    words[..slots_in(words)].get(i).copied().map(unpack)
}

// Swaps the number in a word; false, and nothing changes, where it is no slot or takes no such swap.
pub fn swap_word(words: &mut [u64], i: usize, expected: u32, new: u32) -> bool
    ensures answer { result ≡ word_agrees words.old i expected }
    ensures after { words.new ≡ words_swapped words.old i expected new }
{
    let Some(mut pair) = read_word(words, i) else {
        return false;
    };
    if !swap_pair(&mut pair, expected, new) {
        return false;
    }
    words[i] = pack(pair);
    true
}
