// The header lines.
ghost use Rattle.std.specs.Prelude.{codes};
ghost use Rattle.scenario.specs.Written.{Reads};
ghost use Rattle.scenario.specs.Header.{ThreadsWritten, KindWritten, ValueRead, DueRead, HeaderRead};

use text::{BadLine, Line, Reader, Reason, header_number, number};

// More threads cannot be read.
const MOST_THREADS: u32 = 4;

// The kind of the elements.
#[derive(Clone, Copy, Debug, PartialEq, Eq)]
pub enum Kind {
    Number,
    Quote,
}

#[derive(Clone, Copy, Debug, PartialEq, Eq)]
pub struct Header {
    pub k: u32,
    pub segments: u32,
    pub threads: u32,
    pub kind: Kind,
}

impl Kind {
    // The kind whose word the bytes are.
    fn read(bytes: &[u8]) -> Option<Kind>
        ensures { Reads (KindWritten bytes.now) result }
    {
        match bytes {
            b"number" => Some(Kind::Number),
            b"quote" => Some(Kind::Quote),
            _ => None,
        }
    }
}

// The number of threads that the bytes write.
fn thread_count(bytes: &[u8]) -> Option<u32>
    ensures { Reads (ThreadsWritten bytes.now) result }
{
    number(bytes).filter(|threads| *threads <= MOST_THREADS)
}

// The header line due, line `at`, and what follows its key.
// Each part is taken by let .. else, a rule of the project, so that its refusal stands beside it.
fn value_due<'a>(
    reader: &mut Reader<'a>,
    at: usize,
    key: &[u8],
) -> Result<(Line<'a>, &'a [u8]), BadLine>
    ensures { ValueRead at key.now reader.old result reader.new }
{
    let Some(line) = reader.next_line()? else {
        return Err(BadLine {
            line: at,
            reason: Reason::NotDue,
        });
    };
    let Some(value) = line.after(key) else {
        return Err(line.bad(Reason::NotDue));
    };
    Ok((line, value))
}

fn threads_due(reader: &mut Reader) -> Result<u32, BadLine>
    ensures { DueRead ThreadsWritten 3 (codes "threads=") reader.old result reader.new }
{
    let (line, value) = value_due(reader, 3, b"threads=")?;
    let Some(threads) = thread_count(value) else {
        return Err(line.bad(Reason::Unreadable));
    };
    Ok(threads)
}

fn kind_due(reader: &mut Reader) -> Result<Kind, BadLine>
    ensures { DueRead KindWritten 4 (codes "kind=") reader.old result reader.new }
{
    let (line, value) = value_due(reader, 4, b"kind=")?;
    let Some(kind) = Kind::read(value) else {
        return Err(line.bad(Reason::Unreadable));
    };
    Ok(kind)
}

impl Header {
    // The four header lines, in this order.
    pub fn read(reader: &mut Reader) -> Result<Header, BadLine>
        ensures { HeaderRead reader.old result reader.new }
    {
        let k = header_number(reader, 1, b"k=")?;
        let segments = header_number(reader, 2, b"segments=")?;
        let threads = threads_due(reader)?;
        let kind = kind_due(reader)?;
        Ok(Header {
            k,
            segments,
            threads,
            kind,
        })
    }
}
