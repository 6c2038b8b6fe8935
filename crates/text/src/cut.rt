// Cutting bytes in two.
ghost use Rattle.text.specs.Cut.{Splits};

// The parts before and behind the first byte that equals `mark`.
pub fn split_at_byte<'a>(bytes: &'a [u8], mark: u8) -> Option<(&'a [u8], &'a [u8])>
    ensures { Splits mark bytes.now result }
{
    let i = bytes.iter().position(|b| *b == mark)?;
    Some((&bytes[..i], &bytes[i + 1..]))
}
