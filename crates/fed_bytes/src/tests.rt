use super::*;
use std::test::Fail;

#[test]
fn the_end_of_a_prefix_is_its_last_byte_below_ff_one_higher(rt: HostRuntime) -> Result<(), Fail> {
    let span = Span::of_prefix(rt.alloc(), b"\x61\xff")?;
    assert_eq!(rt; span.left.bytes(), b"\x61\xff".as_slice());
    assert!(rt; span.right == Some(Key::of(rt.alloc(), b"\x62")?));
    assert!(rt; span.contains(b"\x61\xff\x00"));
    assert!(rt; !span.contains(b"\x62"));
    assert!(rt; Span::of_prefix(rt.alloc(), b"\xff")?.right.is_none());
    assert!(rt; !Span::of_key(rt.alloc(), b"a")?.contains(b"a\x00"));
    Ok(())
}

#[test]
fn spans_meet_where_both_have_keys(rt: HostRuntime) -> Result<(), Fail> {
    let one = Span::of_prefix(rt.alloc(), b"a")?;
    let inner = Span::of_prefix(rt.alloc(), b"ab")?;
    let next = Span::of_prefix(rt.alloc(), b"b")?;
    assert!(rt; one.meet(rt.alloc(), &next)?.is_none());
    assert!(rt; !one.overlaps(&next) && !next.overlaps(&one));
    assert!(rt; one.overlaps(&inner) && inner.overlaps(&one));
    let Some(both) = one.meet(rt.alloc(), &inner)? else {
        panic!(rt; "they meet");
    };
    assert!(rt; both.contains(b"ab"));
    assert!(rt; !both.contains(b"ac"));
    Ok(())
}
