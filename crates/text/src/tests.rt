use super::*;

#[test]
fn numbers(rt: HostRuntime) {
    assert_eq!(rt; number(b"4294967295"), Some(4294967295));
    assert_eq!(rt; number(b"4294967296"), None);
    assert_eq!(rt; number(b"007"), Some(7));
    assert_eq!(rt; number(b"+1"), None);
    assert_eq!(rt; number(b""), None);
}

// The next line, or the number of the refusal.
fn next<'a>(reader: &mut Reader<'a>) -> Result<Option<&'a [u8]>, u32> {
    let line = reader.next_line().map_err(|bad| u32::from(bad.reason))?;
    Ok(line.map(|line| line.bytes))
}

#[test]
fn empty_line_and_final_newline(rt: HostRuntime) {
    let mut reader = Reader::new(b"a\n\nb\n");
    assert_eq!(rt; next(&mut reader), Ok(Some(&b"a"[..])));
    assert_eq!(rt; next(&mut reader), Ok(Some(&b""[..])));
    assert_eq!(rt; next(&mut reader), Ok(Some(&b"b"[..])));
    assert_eq!(rt; next(&mut reader), Ok(None));
}

#[test]
fn eighty_bytes(rt: HostRuntime) {
    let long = [b'x'; 81];
    let most = &long[0..80];
    let mut fits = Reader::new(most);
    let line = next(&mut fits);
    assert_eq!(rt; line, Ok(Some(most)));
    let mut over = Reader::new(&long);
    assert_eq!(rt; next(&mut over).err(), Some(21));
}

#[test]
fn parts(rt: HostRuntime) {
    let line = Line {
        number: 1,
        bytes: b"key a b",
    };
    assert_eq!(rt; line.after(b"key "), Some(&b"a b"[..]));
    assert_eq!(rt; line.after(b"keys"), None);
    assert!(rt; split_at_byte(line.bytes, b' ') == Some((&b"key"[..], &b"a b"[..])));
    assert!(rt; split_at_byte(line.bytes, b'\n').is_none());
}
