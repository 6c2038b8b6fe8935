// The tag of a pair: when it lets a swap through, and how it rises then.
ghost use Rattle.std.specs.Prelude.{◌≡◌};
ghost use Rattle.memory.specs.Tags.{takes, renewed};

// Swaps the number of a pair whose tag is the expected one, and raises the tag; a tag at its ceiling lets nothing through.
pub fn swap_pair(pair: &mut (u32, u32), expected: u32, new: u32) -> bool
    ensures answer { result ≡ takes pair.old expected }
    ensures after { pair.new ≡ renewed pair.old expected new }
{
    let (tag, _) = *pair;
    if tag == expected && tag < u32::MAX {
        *pair = (tag + 1, new);
        true
    } else {
        false
    }
}
