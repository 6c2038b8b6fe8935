use std::alloc::{AllocError, Global};
use std::test::Fail;
use stored::printed::printed;

// Each input with what is printed of it.
const TABLE: [(&str, &str); 38] = [
    // a good history: three items in, one put refused as full, the second item taken first, the queue found empty
    (
        "k=2\nsegments=2\nput=0:1\naccepted=0:1\nput=0:2\naccepted=0:2\nput=0:3\naccepted=0:3\nput=1:4\nfull=1:4\ntake=1\nitem=1:2\ntake=0\nitem=0:1\ntake=0\nitem=0:3\ntake=2\nempty=2\n",
        "events=16\nverdict=sound\nreplay=ok\n",
    ),
    // no event, with and without the last newline
    ("k=1\nsegments=2\n", "events=0\nverdict=sound\nreplay=ok\n"),
    ("k=1\nsegments=2", "events=0\nverdict=sound\nreplay=ok\n"),
    // each fault where calls follow one another, and where the replay stops
    (
        "k=1\nsegments=2\nput=0:1\naccepted=0:1\ntake=0\nitem=0:9\n",
        "events=4\nverdict=1:3\nreplay=3\n",
    ),
    (
        "k=1\nsegments=2\nput=0:1\naccepted=0:1\nput=0:2\naccepted=0:2\ntake=0\nitem=0:2\n",
        "events=6\nverdict=2:5\nreplay=5\n",
    ),
    (
        "k=2\nsegments=2\nput=0:1\naccepted=0:1\nput=0:2\naccepted=0:2\nput=0:3\naccepted=0:3\ntake=0\nitem=0:3\n",
        "events=8\nverdict=3:7\nreplay=7\n",
    ),
    (
        "k=1\nsegments=2\nput=0:1\naccepted=0:1\ntake=0\nempty=0\n",
        "events=4\nverdict=4:3\nreplay=3\n",
    ),
    (
        "k=1\nsegments=2\nput=0:1\nfull=0:1\ntake=0\nitem=0:1\n",
        "events=4\nverdict=5:1\nreplay=3\n",
    ),
    // full with (N - 1) * k items held, and with one more
    (
        "k=1\nsegments=2\nput=0:1\naccepted=0:1\nput=0:2\nfull=0:2\n",
        "events=4\nverdict=5:3\nreplay=ok\n",
    ),
    (
        "k=1\nsegments=2\nput=0:1\naccepted=0:1\nput=0:2\naccepted=0:2\nput=0:3\nfull=0:3\n",
        "events=6\nverdict=sound\nreplay=ok\n",
    ),
    // a take from place w = 2 narrows the window to 1, so that the next one may not reach place 2
    (
        "k=2\nsegments=2\nput=0:1\naccepted=0:1\nput=0:2\naccepted=0:2\nput=0:3\naccepted=0:3\ntake=0\nitem=0:2\ntake=0\nitem=0:3\n",
        "events=10\nverdict=2:9\nreplay=9\n",
    ),
    // an empty answer opens the window again
    (
        "k=2\nsegments=2\ntake=0\nempty=0\nput=0:1\naccepted=0:1\nput=0:2\naccepted=0:2\ntake=0\nitem=0:2\n",
        "events=8\nverdict=sound\nreplay=ok\n",
    ),
    // a call in flight at the end; two calls in flight together; an item handed out before its put is answered full
    (
        "k=1\nsegments=2\nput=0:1\n",
        "events=1\nverdict=sound\nreplay=ok\n",
    ),
    (
        "k=1\nsegments=2\nput=0:1\ntake=1\n",
        "events=2\nverdict=sound\nreplay=overlap\n",
    ),
    (
        "k=1\nsegments=2\nput=0:1\nput=1:2\naccepted=0:1\naccepted=1:2\ntake=0\nitem=0:2\n",
        "events=6\nverdict=sound\nreplay=overlap\n",
    ),
    (
        "k=1\nsegments=2\nput=0:1\ntake=1\nitem=1:1\nfull=0:1\n",
        "events=4\nverdict=1:3\nreplay=overlap\n",
    ),
    // k from 1 to 64, 2 to 64 segments
    ("k=0\nsegments=1\n", "refused=1\n"),
    (
        "k=64\nsegments=64\n",
        "events=0\nverdict=sound\nreplay=ok\n",
    ),
    ("k=65\nsegments=2\n", "refused=1\n"),
    ("k=1\nsegments=1\n", "refused=2\n"),
    ("k=1\nsegments=65\n", "refused=2\n"),
    // events that are not well formed
    (
        "k=1\nsegments=2\ntake=63\nempty=63\n",
        "events=2\nverdict=sound\nreplay=ok\n",
    ),
    ("k=1\nsegments=2\ntake=64\n", "refused=14:0\n"),
    ("k=1\nsegments=2\nput=0:2\n", "refused=14:0\n"),
    ("k=1\nsegments=2\nput=0:1\ntake=0\n", "refused=14:1\n"),
    ("k=1\nsegments=2\nput=0:1\nempty=0\n", "refused=14:1\n"),
    ("k=1\nsegments=2\nput=0:1\naccepted=0:2\n", "refused=14:1\n"),
    ("k=1\nsegments=2\ntake=0\nitem=0:0\n", "refused=14:1\n"),
    // header lines that are missing, out of order or without a number of 32 bits
    ("", "bad=1:20\n"),
    ("k=1", "bad=2:20\n"),
    ("segments=2\nk=1\n", "bad=1:20\n"),
    ("k=1\nk=1\n", "bad=2:20\n"),
    ("k=4294967296\nsegments=2\n", "bad=1:19\n"),
    ("k=\nsegments=2\n", "bad=1:19\n"),
    // event lines that cannot be read: an empty line, a sign, a header line, an item too many
    ("k=1\nsegments=2\n\n", "bad=3:19\n"),
    ("k=1\nsegments=2\ntake=+1\n", "bad=3:19\n"),
    ("k=1\nsegments=2\nk=1\n", "bad=3:19\n"),
    ("k=1\nsegments=2\ntake=0:1\n", "bad=3:19\n"),
];

#[test]
fn the_table_is_printed(rt: HostRuntime) -> Result<(), Fail> {
    for (input, expected) in TABLE {
        let text = printed(rt.alloc(), input.as_bytes())?;
        assert_eq!(rt; text.as_str(), expected, "{}", input);
    }
    Ok(())
}

// An empty queue taken from, as many times as there are pairs of events, and one begin more where the number is odd.
fn empty_takes(heap: Global, events: usize) -> Result<String, AllocError> {
    let pairs = "take=0\nempty=0\n".repeat(heap, events / 2)?;
    let last = if events % 2 == 1 { "take=0\n" } else { "" };
    format!(in heap; "k=1\nsegments=2\n{pairs}{last}")
}

#[test]
fn events_up_to_the_limit_are_read(rt: HostRuntime) -> Result<(), Fail> {
    let heap = rt.alloc();
    let most = empty_takes(heap, 65536)?;
    let text = printed(heap, most.as_bytes())?;
    assert_eq!(rt; text.as_str(), "events=65536\nverdict=sound\nreplay=ok\n");
    let mut over = empty_takes(heap, 65537)?;
    let text = printed(heap, over.as_bytes())?;
    assert_eq!(rt; text.as_str(), "refused=13\n");
    over.push_str("what stands behind is not read\n")?;
    let text = printed(heap, over.as_bytes())?;
    assert_eq!(rt; text.as_str(), "refused=13\n");
    Ok(())
}

// A line of a take with as many zeros as make it this long.
fn long_take(heap: Global, length: usize) -> Result<String, AllocError> {
    let zeros = "0".repeat(heap, length.saturating_sub(5))?;
    format!(in heap; "k=1\nsegments=2\ntake={zeros}")
}

#[test]
fn lines_up_to_80_bytes_are_read(rt: HostRuntime) -> Result<(), Fail> {
    let heap = rt.alloc();
    let longest = long_take(heap, 80)?;
    let text = printed(heap, longest.as_bytes())?;
    assert_eq!(rt; text.as_str(), "events=1\nverdict=sound\nreplay=ok\n");
    let over = long_take(heap, 81)?;
    let text = printed(heap, over.as_bytes())?;
    assert_eq!(rt; text.as_str(), "bad=3:21\n");
    Ok(())
}
