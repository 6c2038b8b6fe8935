use super::command::{Command, Turn};
use super::element::Element;
use super::header::{Header, Kind};
use super::quantity::Quantity;
use super::quote::{Quote, Side};
use std::test::Fail;
use text::{BadLine, Line, Reader};

fn line(bytes: &[u8]) -> Line<'_> {
    Line { number: 7, bytes }
}

fn number_command(bytes: &[u8]) -> Option<Command<u32>> {
    Command::read(&line(bytes)).ok()
}

// The number of the quantity of a quote.
fn quantity(bytes: &[u8]) -> Option<i32> {
    Quote::read(bytes).map(|quote| quote.quantity.get())
}

// The line and the number of a header's refusal.
fn refusal(input: &[u8]) -> Option<(usize, u32)> {
    let mut reader = Reader::new(input);
    let bad: BadLine = Header::read(&mut reader).err()?;
    Some((bad.line, u32::from(bad.reason)))
}

#[test]
fn quantities_at_their_edges(rt: HostRuntime) {
    assert_eq!(rt; quantity(b"1:bid:1000000"), Some(1_000_000));
    assert_eq!(rt; quantity(b"1:bid:1000001"), None);
    assert_eq!(rt; quantity(b"1:bid:-1000000"), Some(-1_000_000));
    assert_eq!(rt; quantity(b"1:bid:-1000001"), None);
    assert_eq!(rt; quantity(b"1:bid:-0"), Some(0));
    assert_eq!(rt; quantity(b"1:bid:-007"), Some(-7));
    assert_eq!(rt; quantity(b"1:bid:--1"), None);
    assert_eq!(rt; quantity(b"1:bid:+1"), None);
    assert_eq!(rt; quantity(b"1:bid:-"), None);
    assert_eq!(rt; quantity(b"1:bid:"), None);
    assert!(rt; Quantity::new(1_000_001).is_none());
    assert!(rt; Quantity::new(-1_000_001).is_none());
}

#[test]
fn quotes(rt: HostRuntime) -> Result<(), Fail> {
    let quote = Quote::read(b"0012:ask:-050").ok_or("no quote")?;
    assert_eq!(rt; quote.instrument, 12);
    assert_eq!(rt; quote.side, Side::Ask);
    assert_eq!(rt; format!(in rt.alloc(); "{quote}")?.as_str(), "12:ask:-50");
    let zero = Quote::read(b"4294967295:bid:-0").ok_or("no quote")?;
    assert_eq!(rt;
        format!(in rt.alloc(); "{zero}")?.as_str(),
        "4294967295:bid:0"
    );
    assert_eq!(rt; Quote::read(b"4294967296:bid:1"), None);
    assert_eq!(rt; Quote::read(b"1:Bid:1"), None);
    assert_eq!(rt; Quote::read(b"1:bid:1:"), None);
    assert_eq!(rt; Quote::read(b"1:bid"), None);
    Ok(())
}

// Each kind of element through its bound.
fn reads<E: Element>(bytes: &[u8]) -> bool {
    E::read(bytes).is_some()
}

#[test]
fn elements(rt: HostRuntime) {
    assert!(rt; reads::<u32>(b"4294967295"));
    assert!(rt; !reads::<u32>(b"4294967296"));
    assert!(rt; !reads::<u32>(b"-1"));
    assert!(rt; !reads::<u32>(b"1:bid:1"));
    assert!(rt; reads::<Quote>(b"1:bid:1"));
    assert!(rt; !reads::<Quote>(b"1"));
}

#[test]
fn headers(rt: HostRuntime) {
    let mut reader = Reader::new(b"k=2\nsegments=3\nthreads=4\nkind=quote\n");
    let header = Header {
        k: 2,
        segments: 3,
        threads: 4,
        kind: Kind::Quote,
    };
    assert_eq!(rt; Header::read(&mut reader), Ok(header));
    assert_eq!(rt;
        refusal(b"k=2\nsegments=3\nthreads=5\nkind=quote\n"),
        Some((3, 19))
    );
    assert_eq!(rt;
        refusal(b"k=2\nsegments=3\nthreads=4\nkind=quotes\n"),
        Some((4, 19))
    );
    assert_eq!(rt; refusal(b"k=2\nsegments=3\nkind=number\n"), Some((3, 20)));
    assert_eq!(rt; refusal(b"k=2\nsegments=3\nthreads=4\n"), Some((4, 20)));
    assert_eq!(rt; refusal(b""), Some((1, 20)));
    let mut long = [b'x'; 81];
    long[0] = b'k';
    assert_eq!(rt; refusal(&long), Some((1, 21)));
}

#[test]
fn commands(rt: HostRuntime) {
    let turn = Turn {
        thread: 1,
        start: 4,
    };
    assert_eq!(rt; number_command(b"put=1:7"), Some(Command::Put(1, 7)));
    assert_eq!(rt; number_command(b"take=1"), Some(Command::Take(1)));
    assert_eq!(rt;
        number_command(b"step=1:4"),
        Some(Command::Step(Some(turn)))
    );
    assert_eq!(rt; number_command(b"step=flat"), Some(Command::Step(None)));
    assert_eq!(rt; number_command(b"run=1:4"), Some(Command::Run(turn)));
    assert_eq!(rt; number_command(b"collect=1"), Some(Command::Collect(1)));
    assert_eq!(rt; number_command(b"run=flat"), None);
    assert_eq!(rt; number_command(b"put=1:1:bid:7"), None);
    assert_eq!(rt; number_command(b"put=1"), None);
    assert_eq!(rt; number_command(b"take=1 "), None);
    assert_eq!(rt; number_command(b"k=2"), None);
    assert_eq!(rt; number_command(b""), None);
}

#[test]
fn quote_commands(rt: HostRuntime) -> Result<(), Fail> {
    let quote = Quote::read(b"12:ask:-50").ok_or("no quote")?;
    let put: Command<Quote> = Command::read(&line(b"put=3:12:ask:-50"))
        .ok()
        .ok_or("no put")?;
    assert_eq!(rt; put, Command::Put(3, quote));
    let bad = Command::<Quote>::read(&line(b"put=3:12")).err();
    assert_eq!(rt;
        bad.map(|bad| (bad.line, u32::from(bad.reason))),
        Some((7, 19))
    );
    Ok(())
}
