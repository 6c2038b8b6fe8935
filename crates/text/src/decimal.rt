// Decimal numbers.
ghost use Rattle.text.specs.Numeral.{Reads, Extends};

// The number that the bytes write: digits only, leading zeros allowed.
pub fn number(bytes: &[u8]) -> Option<u32>
    ensures { Reads bytes.now result }
{
    if bytes.is_empty() {
        return None;
    }
    let mut n = 0;
    for b in bytes {
        n = with_digit(n, *b)?;
    }
    Some(n)
}

// `n` with one more digit behind it.
fn with_digit(n: u32, b: u8) -> Option<u32>
    ensures { Extends n b result }
{
    match b {
        b'0'..=b'9' => n.checked_mul(10)?.checked_add(u32::from(b - b'0')),
        _ => None,
    }
}
