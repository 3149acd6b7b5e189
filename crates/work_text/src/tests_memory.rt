use super::*;
use base_core::{List, Text};
use std::alloc::Global;
use std::process::Abort;
use std::test::Fail;

fn shelf(rt: &(impl Abort + AllocGlobal), fails: Vec<u64>) -> Result<MemoryShelf, Fail> {
    let alloc = rt.alloc();
    let names = vec![in alloc;
        Text::of(alloc, "a")?,
        Text::of(alloc, "b")?,
        Text::of(alloc, "a")?,
    ]?;
    let documents = vec![in alloc;
        List::of(Vec::from_slice(alloc, b"first")?),
        List::of(Vec::new(alloc)),
        List::of(Vec::from_slice(alloc, b"third")?),
    ]?;
    assert_eq!(rt; names.len(), documents.len());
    Ok(MemoryShelf::make(alloc, List::of(names), List::of(documents), fails)?)
}

/// Reads a document in pieces of two bytes; `None` where there is none.
fn whole(alloc: Global, shelf: &mut impl Shelf, name: &Text) -> Result<Option<Vec<u8>>, Failed> {
    if !shelf.fetch(name)? {
        return Ok(None);
    }
    let mut bytes = Vec::new(alloc);
    let mut piece = [0u8; 2];
    for _ in 0..10 {
        let count = shelf.read(&mut piece)?;
        if count == 0 {
            break;
        }
        bytes
            .extend_from_slice(&piece[..count])
            .map_err(|_| Failed)?;
    }
    Ok(Some(bytes))
}

fn write_whole(sink: &mut impl Sink, bytes: &[u8]) -> Result<(), Failed> {
    let mut rest = bytes;
    for _ in 0..10 {
        if rest.is_empty() {
            break;
        }
        let count = sink.write(rest)?;
        rest = &rest[count..];
    }
    Ok(())
}

/// Where the call of this number fails: the calls for the first document are five.
fn expect_fault(rt: &(impl Abort + AllocGlobal), number: u64) -> Result<(), Fail> {
    let mut faulty = shelf(rt, vec![in rt.alloc(); number]?)?;
    let fails = whole(rt.alloc(), &mut faulty, &Text::of(rt.alloc(), "a")?).is_err();
    assert_eq!(rt; fails, number < 6, "where call {number} fails");
    assert_eq!(rt;
        faulty.faults(),
        u64::from(fails),
        "where call {number} fails"
    );
    let fails_later = whole(rt.alloc(), &mut faulty, &Text::of(rt.alloc(), "b")?).is_err();
    assert_eq!(rt; fails_later, number == 6, "where call {number} fails");
    Ok(())
}

#[test]
fn a_shelf_fails(rt: HostRuntime) -> Result<(), Fail> {
    for number in 1..7 {
        expect_fault(&rt, number)?;
    }
    Ok(())
}

#[test]
fn a_sink_is_written(rt: HostRuntime) -> Result<(), Fail> {
    let alloc = rt.alloc();
    for (fails, faults, taken) in [(9, 0, "abcde"), (1, 1, "de"), (2, 1, "abde"), (3, 1, "abc")] {
        let mut sink = MemorySink::make(alloc, 2, vec![in alloc; fails]?)?;
        let first = write_whole(&mut sink, b"abc");
        let second = write_whole(&mut sink, b"de");
        assert_eq!(rt; first.is_err(), fails < 3, "where write {fails} fails");
        assert_eq!(rt; second.is_err(), fails == 3, "where write {fails} fails");
        assert_eq!(rt; sink.faults(), faults, "where write {fails} fails");
        assert_eq!(rt; sink.bytes(), taken.as_bytes(), "where write {fails} fails");
    }
    Ok(())
}
