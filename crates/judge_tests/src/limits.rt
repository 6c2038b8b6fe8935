// The longest history, and the most rows.
use super::expect::{USED, check_rows};
use super::histories::{empty_takes, told};
use history::refusal::Refusal;
use history::rows::MOST;
use judge::judge::judge;
use judge::row::Row;
use judge::verdict::Verdict;
use std::test::Fail;

#[test]
fn length(rt: HostRuntime) -> Result<(), Fail> {
    let mut rows = [USED; 1];
    let longer = empty_takes(rt.alloc(), 65537)?;
    assert_eq!(rt; judge(&longer, 1, 2, &mut rows), Err(Refusal::TooLong));
    check_rows(&rt, &rows, USED);
    let longest = empty_takes(rt.alloc(), 65536)?;
    assert_eq!(rt; judge(&longest, 1, 2, &mut rows), Ok(Verdict::Sound));
    check_rows(&rt, &rows, Row::BLANK);
    Ok(())
}

// A row for each item is enough; those behind the first 65,536 stay as they are.
#[test]
fn rows(rt: HostRuntime) -> Result<(), Fail> {
    let heap = rt.alloc();
    let events = told(heap, "p01 a01 p02 a02")?;
    let mut enough = [USED; 2];
    assert_eq!(rt; judge(&events, 1, 2, &mut enough), Ok(Verdict::Sound));
    check_rows(&rt, &enough, Row::BLANK);
    let mut many = vec![in heap; USED; 65540]?;
    assert_eq!(rt; judge(&events, 1, 2, &mut many), Ok(Verdict::Sound));
    assert!(rt; many.len() > MOST);
    check_rows(&rt, &many[0..MOST], Row::BLANK);
    check_rows(&rt, &many[MOST..], USED);
    Ok(())
}
