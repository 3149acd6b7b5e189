use crate::{Scan, ScanFault};
use base_core::Want;
use fed_bytes::{Key, Span};
use row_core::Index;
use std::alloc::Global;
use std::test::Fail;

fn span_of(alloc: Global, left: &[u8], right: Option<&[u8]>) -> Result<Span, Want> {
    let left = Key::of(alloc, left)?;
    let right = match right {
        Some(right) => Some(Key::of(alloc, right)?),
        None => None,
    };
    Ok(Span { left, right })
}

// Asks for each of these numbers, and finds it retired.
fn lose_all(scan: &mut Scan, numbers: u32) -> Result<(), ScanFault> {
    'numbers: for number in 0..numbers {
        lose_one(scan, number)?;
    }
    Ok(())
}

fn lose_one(scan: &mut Scan, number: u32) -> Result<(), ScanFault> {
    scan.gone(number)
}

#[test]
fn a_stale_number_does_not_count(rt: HostRuntime) -> Result<(), Fail> {
    let alloc = rt.alloc();
    let mut scan = Scan::start(alloc, Index::T2i, span_of(alloc, b"", None)?, 0);
    assert_eq!(rt; lose_all(&mut scan, 20), Ok(()));
    if scan.may_ask(3) {
        scan.ask(3);
    }
    assert_eq!(rt; scan.gone(4), Ok(()));
    assert_eq!(rt; scan.asked_number(), Some(3));
    assert_eq!(rt; scan.gone(3), Ok(()));
    assert_eq!(rt; scan.asked_number(), None);
    Ok(())
}

// Asks for the number, which is listed, and finds it retired.
fn lose(scan: &mut Scan, number: u32) -> Result<(), ScanFault> {
    if scan.may_ask(number) {
        scan.ask(number);
    }
    scan.gone(number)
}

#[test]
fn the_eighth_number_ends_the_scan(rt: HostRuntime) -> Result<(), Fail> {
    let alloc = rt.alloc();
    let mut scan = Scan::start(alloc, Index::T2i, span_of(alloc, b"", None)?, 0);
    let numbers = [9, 8, 7, 6, 5, 4, 3, 2];
    let mut last = Ok(());
    'numbers: for number in numbers {
        assert_eq!(rt; last, Ok(()));
        last = lose(&mut scan, number);
    }
    assert_eq!(rt; last, Err(ScanFault::Again { numbers }));
    assert_eq!(rt; scan.asked_number(), Some(2));
    Ok(())
}
