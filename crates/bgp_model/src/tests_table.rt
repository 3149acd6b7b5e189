ghost use Rattle.std.specs.Prelude.{IfOk};
ghost use Rattle.std.specs.List.{AllByRecursion};
ghost use Rattle.term_core.specs.Term.{IsTerm};

use super::*;
use std::process::Abort;
use std::test::Fail;
use term_core::Term;

/// The terms of these spellings.
fn terms(rt: &(impl Abort + AllocGlobal), spelled: &[&[u8]]) -> Result<Vec<Term>, Fail>
    ensures { IfOk result (λ made. AllByRecursion IsTerm made.items) }
{
    let mut made = Vec::new(rt.alloc());
    'terms: for bytes in spelled {
        assert!(rt; bytes.len() < 100);
        let term = Term::decode(rt.alloc(), bytes)?;
        made.push(term)?;
    }
    Ok(made)
}

/// The lines of so many rows in order.
fn sorted_lines(
    rt: &(impl Abort + AllocGlobal),
    spelled: &[&[u8]],
    columns: usize,
    count: usize,
    places: &[Option<u32>],
) -> Result<Vec<u8>, Fail> {
    let alloc = rt.alloc();
    let terms = terms(rt, spelled)?;
    let places = Vec::from_slice(alloc, places)?;
    let table = Table::of(alloc, terms, columns, count, places)?.in_order(alloc)?;
    let mut draft = Draft::behind(Vec::from_slice(alloc, b"before\n")?);
    table.write_lines(alloc, &mut draft)?;
    Ok(draft.whole())
}

fn expect(
    rt: &(impl Abort + AllocGlobal),
    spelled: &[&[u8]],
    columns: usize,
    count: usize,
    places: &[Option<u32>],
    text: &str,
) -> Result<(), Fail> {
    let lines = sorted_lines(rt, spelled, columns, count, places)?;
    assert_eq!(rt; lines.as_slice(), text.as_bytes());
    Ok(())
}

const MIXED: &[Option<u32>] = &[
    Some(0),
    Some(1),
    Some(1),
    Some(0),
    None,
    Some(0),
    Some(1),
    None,
    Some(1),
    Some(0),
];

const FRONTS: &[Option<u32>] = &[
    Some(2),
    Some(0),
    Some(3),
    Some(0),
    Some(0),
    Some(3),
    Some(1),
    Some(4),
    Some(4),
    Some(1),
];

const TWO_IRIS: &[&[u8]] = &[b"\x01b:", b"\x01a:"];

const LITERALS: &[&[u8]] = &[
    b"\x03\0\0\0\x01xen",
    b"\x02\0\0\0\x01xhttp://www.w3.org/2001/XMLSchema#string",
    b"\x02\0\0\0\x01xa:b",
    b"\x03\0\0\0\x01xen-gb",
    b"\x02\0\0\0\x02x\x01http://www.w3.org/2001/XMLSchema#string",
];

/// A row stands as often as it comes, unbound before bound, and no second column counts before the first.
#[test]
fn rows_are_sorted_by_their_cells(rt: HostRuntime) -> Result<(), Fail> {
    let text = "before\n\t<b:>\n<a:>\t\n<a:>\t<b:>\n<a:>\t<b:>\n<b:>\t<a:>\n";
    expect(&rt, TWO_IRIS, 2, 5, MIXED, text)
}

/// Where one cell is a front of another, the shorter one stands first, also before a tab.
#[test]
fn a_front_stands_first(rt: HostRuntime) -> Result<(), Fail> {
    let text =
        "before\n\"x\x01\"\t\"x\"\n\"x\"\t\"x\x01\"\n\"x\"@en\t\"x\"@en-gb\n\"x\"@en-gb\t\"x\"@en\n\
        \"x\"^^<a:b>\t\"x\"@en\n";
    expect(&rt, LITERALS, 2, 5, FRONTS, text)
}
