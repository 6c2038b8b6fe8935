// A pair in a word of 64 bits: the tag in the upper 32, the number in the lower. By shifts and masks, so that the layout shows.
ghost use Rattle.std.specs.Prelude.{◌≡◌};
ghost use Rattle.memory.specs.Words.{packed, unpacked};

pub fn pack(pair: (u32, u32)) -> u64
    ensures is { result ≡ packed pair }
    ensures back { unpacked result ≡ pair }
{
    let (tag, number) = pair;
    ((tag as u64) << 32) | (number as u64)
}

pub fn unpack(word: u64) -> (u32, u32)
    ensures is { result ≡ unpacked word }
    ensures back { packed result ≡ word }
{
    ((word >> 32) as u32, (word & 0xffff_ffff) as u32)
}
