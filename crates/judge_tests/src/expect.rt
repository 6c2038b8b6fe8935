// What a judgement should answer, and what it should leave of the rows.
use super::histories::told;
use history::refusal::Refusal;
use judge::judge::judge;
use judge::row::Row;
use judge::verdict::Verdict;
use std::alloc::Global;
use std::process::Abort;
use std::test::Fail;

// What a row lent may hold at first.
pub const USED: Row = Row {
    began: Some(6),
    passes: 9,
    accepted: true,
    refused: true,
    handed: true,
};

pub fn check_rows(rt: &impl Abort, rows: &[Row], all: Row) {
    for row in rows {
        assert_eq!(rt; *row, all);
    }
}

// The verdict on the history that the text tells. The rows are blank then.
pub fn finds(
    rt: &impl Abort,
    heap: Global,
    text: &str,
    k: u32,
    segments: u32,
    verdict: Verdict,
) -> Result<(), Fail> {
    let events = told(heap, text)?;
    let mut rows = [USED; 8];
    assert_eq!(rt;
        judge(&events, k, segments, &mut rows),
        Ok(verdict),
        "{}",
        text
    );
    check_rows(rt, &rows, Row::BLANK);
    Ok(())
}

// The refusal of that history in so many rows. The rows are as they were.
pub fn refuses(
    rt: &impl Abort,
    heap: Global,
    text: &str,
    k: u32,
    segments: u32,
    lent: usize,
    refusal: Refusal,
) -> Result<(), Fail> {
    let events = told(heap, text)?;
    let mut rows = vec![in heap; USED; lent]?;
    assert_eq!(rt;
        judge(&events, k, segments, &mut rows),
        Err(refusal),
        "{}",
        text
    );
    check_rows(rt, &rows, USED);
    Ok(())
}
