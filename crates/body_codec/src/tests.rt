ghost use Rattle.std.specs.Prelude.{◌≡◌, ◌<◌, ◌^◌, length, IfOk};

use super::*;
use base_core::{Text, Want, put_u32};
use change_model::{Change, Kind};
use std::alloc::Global;
use std::test::Fail;
use term_core::{Statement, Term};

/// The body of the Add of `<http://e/a> <http://e/p> <http://e/b> .`
const WORKED: &[u8] =
    b"\x01\x01\0\0\0\x03\0\0\0\x0b\x01http://e/a\0\0\0\x0b\x01http://e/p\0\0\0\x0b\x01http://e/b\0\0\0\x01\0\0\0\0\0\0\0\x01\0\0\0\x02";

/// The body of the Add of `_:a <e:p> "x"@en . _:a <e:p> "y"^^<e:d> . _:b <e:p> _:a .`
const KINDS: &[u8] =
    b"\x01\x01\0\0\0\x05\0\0\0\x0a\x04\0\0\0\0\0\0\0\0a\0\0\0\x04\x01e:p\0\0\0\x08\x03\0\0\0\x01xen\0\0\0\x09\x02\0\0\0\x01ye:d\0\0\0\x0a\x04\0\0\0\0\0\0\0\0b\0\0\0\x03\0\0\0\0\0\0\0\x01\0\0\0\x02\0\0\0\0\0\0\0\x01\0\0\0\x03\0\0\0\x04\0\0\0\x01\0\0\0\0";

/// The body read and written again.
fn written_again(alloc: Global, bytes: &[u8]) -> Result<Vec<u8>, BodyFault>
    requires { length bytes.now < 2 ^ 32 }
    ensures { IfOk result (λ made. made.items ≡ bytes.now) }
{
    let change = read_body(alloc, bytes)?;
    Ok(write_body(alloc, &change)?)
}

/// Whether the bytes are refused at this offset. There is memory.
fn is_bad_at(alloc: Global, bytes: &[u8], at: u32) -> bool {
    if bytes.len() > 1000 {
        return false;
    }
    read_body(alloc, bytes).err() == Some(BodyFault::BadBody { at })
}

/// Whether the bytes are refused at this offset once the byte at the place is another one.
fn is_bad_with(alloc: Global, bytes: &[u8], place: usize, byte: u8, at: u32) -> Result<bool, Want> {
    let mut changed = bytes.to_vec(alloc)?;
    if let Some(there) = changed.get_mut(place) {
        *there = byte;
    }
    Ok(is_bad_at(alloc, &changed, at))
}

/// Whether so many of the bytes are refused at this offset.
fn is_bad_cut(alloc: Global, bytes: &[u8], count: usize, at: u32) -> bool {
    match bytes.split_at_checked(count) {
        Some((front, _)) => is_bad_at(alloc, front, at),
        None => false,
    }
}

fn iri(alloc: Global, text: &str) -> Result<Term, Want> {
    Ok(Term::Iri(Text::of(alloc, text)?))
}

/// How many statements the change of the bytes has.
fn count(alloc: Global, bytes: &[u8]) -> Option<usize> {
    if bytes.len() > 1000 {
        return None;
    }
    match read_body(alloc, bytes) {
        Ok(change) => Some(change.statements.items().len()),
        Err(_) => None,
    }
}

#[test]
fn the_worked_body_is_that_of_its_change(rt: HostRuntime) -> Result<(), Fail> {
    assert_eq!(rt; WORKED.len(), 67);
    let change = read_body(rt.alloc(), WORKED)?;
    assert_eq!(rt; change.kind, Kind::Add);
    let [statement] = change.statements.items() else {
        panic!(&rt; "one statement");
    };
    assert!(rt; statement.subject.equals(&iri(rt.alloc(), "http://e/a")?));
    assert!(rt; statement.predicate.equals(&iri(rt.alloc(), "http://e/p")?));
    assert!(rt; statement.object.equals(&iri(rt.alloc(), "http://e/b")?));
    assert_eq!(rt; written_again(rt.alloc(), WORKED)?.as_slice(), WORKED);
    Ok(())
}

#[test]
fn all_kinds_of_terms_are_written_as_they_were_read(rt: HostRuntime) -> Result<(), Fail> {
    assert_eq!(rt; count(rt.alloc(), KINDS), Some(3));
    assert_eq!(rt; written_again(rt.alloc(), KINDS)?.as_slice(), KINDS);
    Ok(())
}

#[test]
fn a_body_that_ends_early_is_bad_at_the_field_that_is_short(rt: HostRuntime) {
    assert!(rt; is_bad_cut(rt.alloc(), WORKED, 0, 0));
    assert!(rt; is_bad_cut(rt.alloc(), WORKED, 1, 1));
    assert!(rt; is_bad_cut(rt.alloc(), WORKED, 5, 2));
    assert!(rt; is_bad_cut(rt.alloc(), WORKED, 6, 6));
    assert!(rt; is_bad_cut(rt.alloc(), WORKED, 9, 6));
    assert!(rt; is_bad_cut(rt.alloc(), WORKED, 10, 10));
    assert!(rt; is_bad_cut(rt.alloc(), WORKED, 20, 10));
    assert!(rt; is_bad_cut(rt.alloc(), WORKED, 24, 21));
    assert!(rt; is_bad_cut(rt.alloc(), WORKED, 51, 51));
    assert!(rt; is_bad_cut(rt.alloc(), WORKED, 54, 51));
    assert!(rt; is_bad_cut(rt.alloc(), WORKED, 55, 55));
    assert!(rt; is_bad_cut(rt.alloc(), WORKED, 66, 55));
}

#[test]
fn a_bad_term_is_named_at_its_spelling(rt: HostRuntime) -> Result<(), Fail> {
    // No term is spelled so, for its kind and for a space in its IRI.
    assert!(rt; is_bad_with(rt.alloc(), WORKED, 10, 5, 10)?);
    assert!(rt; is_bad_with(rt.alloc(), WORKED, 45, b' ', 40)?);
    // The second term is the first one once more.
    assert!(rt; is_bad_with(rt.alloc(), WORKED, 35, b'a', 25)?);
    // A blank node has a time, and one stands in a Remove.
    assert!(rt; is_bad_with(rt.alloc(), KINDS, 18, 1, 10)?);
    assert!(rt; is_bad_with(rt.alloc(), KINDS, 1, 2, 10)?);
    Ok(())
}

#[test]
fn a_bad_statement_is_named_at_its_offset(rt: HostRuntime) -> Result<(), Fail> {
    // A place that isn't below the count of terms.
    assert!(rt; is_bad_with(rt.alloc(), WORKED, 66, 3, 55)?);
    // The second term is named first, and the third one before the second.
    assert!(rt; is_bad_with(rt.alloc(), WORKED, 58, 1, 55)?);
    assert!(rt; is_bad_with(rt.alloc(), WORKED, 62, 2, 55)?);
    // In the second statement a literal is the subject, a literal and a blank node are the predicate.
    assert!(rt; is_bad_with(rt.alloc(), KINDS, 86, 2, 83)?);
    assert!(rt; is_bad_with(rt.alloc(), KINDS, 90, 2, 83)?);
    assert!(rt; is_bad_with(rt.alloc(), KINDS, 90, 0, 83)?);
    Ok(())
}

#[test]
fn faults_are_printed(rt: HostRuntime) -> Result<(), Fail> {
    let bad = BodyFault::BadBody { at: 10 };
    assert_eq!(rt;
        format!(in rt.alloc(); "{bad}")?.as_str(),
        "no body of a change: the field at byte 10 breaks its rule"
    );
    let want = BodyFault::from(Want::NoMemory);
    assert_eq!(rt; format!(in rt.alloc(); "{want}")?.as_str(), "no memory");
    Ok(())
}

/// The body of a Remove of so many statements over one IRI, which is spelled in 20,000 bytes.
fn repeated(alloc: Global, count: u32) -> Result<Vec<u8>, Want> {
    let mut bytes = b"\x01\x02\0\0\0\x01\0\0\x4e\x20\x01e:"
        .as_slice()
        .to_vec(alloc)?;
    bytes.resize(20_010, b'p')?;
    put_u32(count, &mut bytes)?;
    let end = bytes.len().saturating_add(12 * count as usize);
    bytes.resize(end, 0)?;
    Ok(bytes)
}

/// How many statements are read of so many.
fn read_of(alloc: Global, count: u32) -> Result<usize, BodyFault> {
    let bytes = repeated(alloc, count)?;
    if bytes.len() > 10_000_000 {
        return Err(BodyFault::BadBody { at: 0 });
    }
    Ok(read_body(alloc, &bytes)?.statements.items().len())
}

#[test]
fn a_body_that_asks_for_gigabytes_wants_memory(rt: HostRuntime) {
    assert_eq!(rt; read_of(rt.alloc(), 637), Ok(637));
    assert_eq!(rt; read_of(rt.alloc(), 638), Err(BodyFault::NoMemory));
    assert_eq!(rt; read_of(rt.alloc(), 100_000), Err(BodyFault::NoMemory));
}
