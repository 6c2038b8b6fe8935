// Each refusal: a history, k, the number of segments and that of the rows, then the refusal with the event that it names.
use super::expect::refuses;
use history::refusal::Refusal;
use std::test::Fail;

const CASES: [(&str, u32, u32, usize, Refusal); 15] = [
    // the size of a segment, and the number of segments
    ("p01 a01", 0, 0, 8, Refusal::SegmentSize),
    ("p01 a01", 0, 2, 8, Refusal::SegmentSize),
    ("p01 a01", 65, 2, 8, Refusal::SegmentSize),
    ("p01 a01", 1, 1, 8, Refusal::Segments),
    ("p01 a01", 1, 65, 8, Refusal::Segments),
    // an event that is not well formed
    ("p02", 1, 2, 8, Refusal::Malformed(0)),
    ("a01", 1, 2, 8, Refusal::Malformed(0)),
    ("p01 p02", 1, 2, 8, Refusal::Malformed(1)),
    ("p01 a02", 1, 2, 8, Refusal::Malformed(1)),
    ("p01 a01 a01", 1, 2, 8, Refusal::Malformed(2)),
    ("t00 o00", 1, 2, 8, Refusal::Malformed(1)),
    ("t00 e01", 1, 2, 8, Refusal::Malformed(1)),
    ("p01 a01 p02 a02 e00", 1, 2, 0, Refusal::Malformed(4)),
    // too few rows
    ("p01 a01", 1, 2, 0, Refusal::TooFewRows),
    ("p01 a01 p02 a02", 1, 2, 1, Refusal::TooFewRows),
];

#[test]
fn refusals(rt: HostRuntime) -> Result<(), Fail> {
    let heap = rt.alloc();
    for (text, k, segments, lent, refusal) in CASES {
        refuses(&rt, heap, text, k, segments, lent, refusal)?;
    }
    Ok(())
}

#[test]
fn numbers(rt: HostRuntime) {
    assert_eq!(rt; u32::from(Refusal::SegmentSize), 1);
    assert_eq!(rt; u32::from(Refusal::Segments), 2);
    assert_eq!(rt; u32::from(Refusal::TooLong), 13);
    assert_eq!(rt; u32::from(Refusal::Malformed(7)), 14);
    assert_eq!(rt; u32::from(Refusal::TooFewRows), 15);
}
