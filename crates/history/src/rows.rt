// The rows that a caller lends to work in.
ghost use Rattle.std.specs.Prelude.{◌≡◌};
ghost use Rattle.history.specs.Limits.{cleared};

// The most rows of a table that are used, and the most events of a history.
pub const MOST: usize = 65536;

// Writes `blank` into every row in use.
pub fn clear<T: Copy>(rows: &mut [T], blank: T)
    ensures { rows.new ≡ cleared blank rows.old }
{
    // No `fill`: it clones, and that a type is Copy does not say that its clone is the same value.
    let used = rows.len().min(MOST);
    for row in rows[..used].iter_mut() {
        *row = blank;
    }
}
