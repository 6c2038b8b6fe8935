// Each fault, and what just misses it: a history, k, the number of segments, then the verdict.
use super::expect::finds;
use judge::fault::Fault::{NotEmpty, NotFull, NotThere, PassedTooOften, TooManyOlder};
use judge::verdict::Verdict::{self, Fault, Sound};
use std::test::Fail;

const CASES: [(&str, u32, u32, Verdict); 32] = [
    // an item that is not there is handed out, or one that was handed out is refused
    ("t00 o01", 1, 2, Fault(NotThere, 1)),
    ("t00 o09", 1, 2, Fault(NotThere, 1)),
    ("p01 t10 f01 o11", 1, 2, Fault(NotThere, 3)),
    ("p01 a01 t00 o01 t00 o01", 1, 2, Fault(NotThere, 5)),
    ("p01 t10 o11 f01", 1, 2, Fault(NotThere, 3)),
    ("p01 a01 t00 o01", 1, 2, Sound),
    ("p01 t10 f01 e10", 1, 2, Sound),
    // one handed out before its acceptance is never held
    ("p01 t10 o11 a01", 1, 2, Sound),
    ("p01 t10 o11 a01 t10 e10", 1, 2, Sound),
    ("p01 t10 o11 a01 p02 a02 t00 o02", 1, 2, Sound),
    // a held item is passed too often
    ("p01 a01 p02 a02 t00 o02", 1, 2, Fault(PassedTooOften, 5)),
    ("p01 a01 p02 a02 t00 o02", 2, 2, Sound),
    ("p01 p12 a01 a12 t00 o02", 1, 2, Sound),
    (
        "p01 a01 p02 a02 t00 o02 p03 a03 t00 o03",
        2,
        2,
        Fault(PassedTooOften, 9),
    ),
    ("p01 a01 p02 a02 t00 o02 p03 a03 t00 o03", 3, 2, Sound),
    // too many held items are older
    (
        "p01 a01 p02 a02 p03 a03 t00 o03",
        2,
        2,
        Fault(TooManyOlder, 7),
    ),
    ("p01 a01 p02 a02 p03 a03 t00 o03", 3, 2, Sound),
    ("p01 a01 p02 a02 p03 a03 t00 o01 t00 o03", 2, 2, Sound),
    // empty while an item is held
    ("p01 a01 t00 e00", 1, 2, Fault(NotEmpty, 3)),
    ("t10 p01 a01 e10", 1, 2, Sound),
    ("p01 t10 a01 e10", 1, 2, Sound),
    ("p01 a01 t00 o01 t00 e00", 1, 2, Sound),
    // full while there is room
    ("p01 a01 p02 f02", 1, 2, Fault(NotFull, 3)),
    ("p01 a01 p02 a02 p03 f03", 1, 2, Sound),
    ("p01 a01 p02 a02 p03 f03", 1, 3, Fault(NotFull, 5)),
    ("p01 a01 p02 a02 p03 f03", 2, 2, Fault(NotFull, 5)),
    ("p01 a01 p02 t10 f02", 1, 2, Sound),
    ("p01 t10 a01 o11 p02 f02", 1, 2, Sound),
    // the lowest fault of the first event that shows one
    ("p01 a01 p02 t10 f02 o12", 1, 2, Fault(NotThere, 5)),
    (
        "p01 a01 p02 a02 p03 a03 t00 o03",
        1,
        2,
        Fault(PassedTooOften, 7),
    ),
    (
        "p01 a01 p02 a02 p03 a03 t00 o03 t00 o03",
        1,
        2,
        Fault(PassedTooOften, 7),
    ),
    ("p01 a01 t00 e00 t00 o09", 1, 2, Fault(NotEmpty, 3)),
];

#[test]
fn verdicts(rt: HostRuntime) -> Result<(), Fail> {
    let heap = rt.alloc();
    for (text, k, segments, verdict) in CASES {
        finds(&rt, heap, text, k, segments, verdict)?;
    }
    Ok(())
}

#[test]
fn numbers(rt: HostRuntime) {
    assert_eq!(rt; u32::from(Sound), 0);
    assert_eq!(rt; u32::from(Fault(NotThere, 7)), 1);
    assert_eq!(rt; u32::from(Fault(PassedTooOften, 7)), 2);
    assert_eq!(rt; u32::from(Fault(TooManyOlder, 7)), 3);
    assert_eq!(rt; u32::from(Fault(NotEmpty, 7)), 4);
    assert_eq!(rt; u32::from(Fault(NotFull, 7)), 5);
}
