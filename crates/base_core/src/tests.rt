use super::*;
use std::test::Fail;

/// The lengths of the first line and of what is behind it.
fn cut(text: &[u8], end: LineEnd) -> Option<(usize, usize)> {
    first_line(text, end).map(|(line, rest)| (line.len(), rest.len()))
}

#[test]
fn lines_end_where_they_should(rt: HostRuntime) {
    assert_eq!(rt; cut(b"", LineEnd::Any), None);
    assert_eq!(rt; cut(b"ab", LineEnd::Any), Some((2, 0)));
    assert_eq!(rt; cut(b"a\r\nb", LineEnd::Any), Some((1, 1)));
    assert_eq!(rt; cut(b"a\rb", LineEnd::Any), Some((1, 1)));
    assert_eq!(rt; cut(b"a\rb", LineEnd::LineFeed), Some((3, 0)));
    assert_eq!(rt; cut(b"a\r\nb", LineEnd::LineFeed), Some((1, 1)));
    assert_eq!(rt; cut(b"a\r", LineEnd::LineFeed), Some((2, 0)));
}

#[test]
fn numbers_are_eight_bytes(rt: HostRuntime) -> Result<(), Fail> {
    let mut out = vec![in rt.alloc(); 7u8]?;
    put_u64(258, &mut out)?;
    assert_eq!(rt; out.as_slice(), b"\x07\0\0\0\0\0\0\x01\x02".as_slice());
    assert_eq!(rt; get_u64(&out, 1), Some(258));
    assert_eq!(rt; get_u64(&out, 2), None);
    Ok(())
}
