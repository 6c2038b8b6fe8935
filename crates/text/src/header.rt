// Header lines.
ghost use Rattle.text.specs.Header.{HeaderRead};

use super::decimal::number;
use super::line::{BadLine, Reason};
use super::reader::Reader;

// The number on the header line due: line `at`, which begins with `key`.
// Each part is taken by let .. else, a rule of the project (docs/DECISIONS.md), so that its refusal stands beside it.
pub fn header_number(reader: &mut Reader, at: usize, key: &[u8]) -> Result<u32, BadLine>
    ensures { HeaderRead at key.now reader.old result reader.new }
{
    let Some(line) = reader.next_line()? else {
        return Err(BadLine {
            line: at,
            reason: Reason::NotDue,
        });
    };
    let Some(value) = line.after(key) else {
        return Err(line.bad(Reason::NotDue));
    };
    let Some(n) = number(value) else {
        return Err(line.bad(Reason::Unreadable));
    };
    Ok(n)
}
