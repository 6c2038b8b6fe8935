// A reader of lines over borrowed bytes.
ghost use Rattle.std.specs.Prelude.{◌≤◌, length};

mod reading;

// The bytes with a position, a rule of the project, and no rest of them: the count is bounded by the position.
#[derive(Drop)]
pub struct Reader<'a> {
    bytes: &'a [u8],
    pos: usize,
    // How many lines were handed on.
    number: usize,
    ghost within: { pos ≤ length bytes.now },
    // Each line that was handed on took a byte or more, so the count fits.
    ghost counted: { number ≤ pos },
}
