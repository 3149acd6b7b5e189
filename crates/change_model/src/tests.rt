use super::*;
use base_core::{List, Text, Want};
use row_core::{Cell, Row, Rows};
use std::alloc::Global;
use std::sync::Arc;
use std::test::Fail;
use term_core::{Statement, Term};

const SPO_1_2_3: &[u8] = b"\0\0\0\0\0\0\0\x01\0\0\0\0\0\0\0\x02\0\0\0\0\0\0\0\x03";

fn iri(alloc: Global, text: &str) -> Result<Term, Want> {
    Ok(Term::Iri(Text::of(alloc, text)?))
}

fn statement(alloc: Global, subject: &str, object: Term) -> Result<Statement, Want> {
    Ok(Statement {
        subject: iri(alloc, subject)?,
        predicate: iri(alloc, "p")?,
        object,
    })
}

/// The entry of a change that is committed at the time 5, with so many ids known before.
fn entry_for(
    alloc: Global,
    kind: Kind,
    statements: List<Statement>,
    ids: [Option<u64>; 3],
    known: u64,
) -> Result<Entry, Want> {
    entry_with(alloc, kind, statements, Vec::from_array(alloc, ids)?, known)
}

fn entry_with(
    alloc: Global,
    kind: Kind,
    statements: List<Statement>,
    ids: Vec<Option<u64>>,
    known: u64,
) -> Result<Entry, Want> {
    let vocabulary = vocabulary_of(alloc, &statements)?;
    let change = Change { kind, statements };
    let ids = List::of(ids);
    let resolved = Resolved {
        change,
        vocabulary,
        ids,
    };
    entry_of(alloc, &resolved, &nothing_later(alloc), known, 5)
}

fn nothing_later(alloc: Global) -> List<Arc<Entry>> {
    List::of(Vec::new(alloc))
}

/// The list of this one entry.
fn only(alloc: Global, entry: Entry) -> Result<List<Arc<Entry>>, Want> {
    let mut entries = Vec::new(alloc);
    entries.push(Arc::new(alloc, entry)?)?;
    Ok(List::of(entries))
}

/// The entry of a change of one statement, whose terms were looked up before the first change.
fn entry_since(
    alloc: Global,
    kind: Kind,
    statement: Statement,
    later: &List<Arc<Entry>>,
    known: u64,
    time: u64,
) -> Result<Entry, Want> {
    let statements = one(alloc, statement)?;
    let vocabulary = vocabulary_of(alloc, &statements)?;
    let ids = List::of(vec![in alloc; None; vocabulary.terms.items().len()]?);
    let change = Change { kind, statements };
    let resolved = Resolved {
        change,
        vocabulary,
        ids,
    };
    entry_of(alloc, &resolved, later, known, time)
}

/// The entry of the first change, which adds `a p new`.
fn first_entry(alloc: Global) -> Result<List<Arc<Entry>>, Want> {
    let statement = triple(alloc, "http://e/a", "http://e/p", "http://e/new")?;
    let entry = entry_since(alloc, Kind::Add, statement, &nothing_later(alloc), 0, 1)?;
    only(alloc, entry)
}

fn triple(alloc: Global, subject: &str, predicate: &str, object: &str) -> Result<Statement, Want> {
    Ok(Statement {
        subject: iri(alloc, subject)?,
        predicate: iri(alloc, predicate)?,
        object: iri(alloc, object)?,
    })
}

/// The statement `a p b`, so many times.
fn same(alloc: Global, times: u8) -> Result<List<Statement>, Want> {
    let mut statements = Vec::new(alloc);
    for _ in 0..times {
        statements.push(statement(alloc, "a", iri(alloc, "b")?)?)?;
    }
    Ok(List::of(statements))
}

fn one(alloc: Global, statement: Statement) -> Result<List<Statement>, Want> {
    let mut statements = Vec::new(alloc);
    statements.push(statement)?;
    Ok(List::of(statements))
}

fn node(alloc: Global, at: u64) -> Result<Term, Want> {
    let label = Text::of(alloc, "x")?;
    Ok(Term::Blank { at, label })
}

/// Whether this is the spelling at the place.
fn is_spelled(vocabulary: &Vocabulary, place: usize, bytes: &[u8]) -> bool {
    match vocabulary.spellings.items().get(place) {
        Some(key) => key.bytes() == bytes,
        None => false,
    }
}

/// Whether the first row has this key, and this value if there is one.
fn begins_with(rows: &Rows, key: &[u8], value: Option<&[u8]>) -> bool {
    match rows.items().first() {
        Some(row) => row.key.bytes() == key && has_value(row, value),
        None => false,
    }
}

fn has_value(row: &Row, bytes: Option<&[u8]>) -> bool {
    match (&row.cell, bytes) {
        (Cell::Value(value), Some(bytes)) => value.bytes() == bytes,
        (Cell::Deleted, None) => true,
        _ => false,
    }
}

#[test]
fn a_vocabulary_has_shared_terms_once(rt: HostRuntime) -> Result<(), Fail> {
    let statements = one(
        rt.alloc(),
        statement(rt.alloc(), "a", iri(rt.alloc(), "a")?)?,
    )?;
    let vocabulary = vocabulary_of(rt.alloc(), &statements)?;
    assert_eq!(rt; vocabulary.terms.items().len(), 2);
    let places = Places {
        subject: 0,
        predicate: 1,
        object: 0,
    };
    assert_eq!(rt; vocabulary.places.items(), [places].as_slice());
    assert!(rt; is_spelled(&vocabulary, 0, b"\x01a"));
    assert!(rt; is_spelled(&vocabulary, 1, b"\x01p"));
    Ok(())
}

#[test]
fn an_add_gives_ids_from_1(rt: HostRuntime) -> Result<(), Fail> {
    let statements = same(rt.alloc(), 1)?;
    let entry = entry_for(rt.alloc(), Kind::Add, statements, [None, None, None], 0)?;
    assert_eq!(rt; entry.terms, 3);
    assert!(rt; begins_with(&entry.t2i, b"\x01a", Some(b"\0\0\0\0\0\0\0\x01")));
    assert!(rt; begins_with(&entry.i2t, b"\0\0\0\0\0\0\0\x01", Some(b"\x01a")));
    Ok(())
}

#[test]
fn a_remove_marks_a_statement_of_known_terms(rt: HostRuntime) -> Result<(), Fail> {
    let statements = same(rt.alloc(), 1)?;
    let ids = [Some(1), Some(2), Some(3)];
    let entry = entry_for(rt.alloc(), Kind::Remove, statements, ids, 3)?;
    assert!(rt; entry.t2i.items().is_empty());
    assert!(rt; begins_with(&entry.spo, SPO_1_2_3, None));
    Ok(())
}

#[test]
fn a_label_is_bound_at_the_time(rt: HostRuntime) -> Result<(), Fail> {
    let node = node(rt.alloc(), 0)?;
    let statements = one(rt.alloc(), statement(rt.alloc(), "a", node)?)?;
    let ids = [Some(1), Some(2), None];
    let entry = entry_for(rt.alloc(), Kind::Add, statements, ids, 2)?;
    assert!(rt;
        begins_with(
            &entry.t2i,
            b"\x04\0\0\0\0\0\0\0\x05x",
            Some(b"\0\0\0\0\0\0\0\x03")
        )
    );
    Ok(())
}

#[test]
fn a_term_has_the_id_that_a_later_entry_gave(rt: HostRuntime) -> Result<(), Fail> {
    let later = first_entry(rt.alloc())?;
    let statement = triple(rt.alloc(), "http://e/new", "http://e/q", "http://e/b")?;
    let entry = entry_since(rt.alloc(), Kind::Add, statement, &later, 3, 2)?;
    assert_eq!(rt; entry.terms, 5);
    assert_eq!(rt; entry.t2i.items().len(), 2);
    assert!(rt;
        begins_with(
            &entry.spo,
            b"\0\0\0\0\0\0\0\x03\0\0\0\0\0\0\0\x04\0\0\0\0\0\0\0\x05",
            Some(b"")
        )
    );
    Ok(())
}
