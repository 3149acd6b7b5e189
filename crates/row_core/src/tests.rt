//! Rows, with ample memory.
use super::*;
use fed_bytes::Key;
use std::test::Fail;

#[test]
fn a_row_and_its_copy_are_equal(rt: HostRuntime) -> Result<(), Fail> {
    let alloc = rt.alloc();
    let one = Row {
        key: Key::of(alloc, b"a")?,
        time: 1,
        cell: Cell::Value(Key::of(alloc, b"x")?),
    };
    assert!(rt; one == one.copy(alloc)?);
    let rows = Rows::of(vec![in alloc; one]?);
    assert_eq!(rt; rows.items().len(), 1);
    assert_eq!(rt; rows.into_items().len(), 1);
    Ok(())
}
