//! Windows of many rows.
ghost use Rattle.std.specs.Prelude.{◌≡◌, ◌+◌, IfOk, OnOk};

use base_core::{Want, put_u64};
use fed_bytes::{Key, Span};
use row_core::{Cell, Row, Rows};
use std::alloc::Global;
use window_core::{LiveWindow, Window};

/// An odd number, so that different numbers have different keys, in no order.
const SPREAD: u64 = 0x9E37_79B9_7F4A_7C15;

/// The key of a number.
pub fn key_of(alloc: Global, number: u64) -> Result<Key, Want> {
    let mut bytes = Vec::new(alloc);
    put_u64(number.wrapping_mul(SPREAD), &mut bytes)?;
    Ok(Key::from_bytes(bytes))
}

/// A window of so many rows: at each time one row, of a key of its own.
pub fn filled(alloc: Global, count: u64) -> Result<LiveWindow, Want> {
    let all = Span {
        left: Key::of(alloc, b"")?,
        right: None,
    };
    let mut window = LiveWindow::make(alloc, all, 0)?;
    for number in 0..count {
        add_one(alloc, &mut window, number)?;
    }
    Ok(window)
}

/// Adds one row at the next time.
fn add_one(alloc: Global, window: &mut LiveWindow, number: u64) -> Result<(), Want> {
    let Some(time) = window.upto().checked_add(1) else {
        return Err(Want::NoMemory);
    };
    let row = Row {
        key: key_of(alloc, number)?,
        time,
        cell: Cell::Value(Key::of(alloc, b"")?),
    };
    window.add(alloc, &Rows::of(vec![in alloc; row]?), time)
}
