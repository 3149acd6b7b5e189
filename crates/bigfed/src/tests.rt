//! The program over memory forms, with ample memory.
use super::*;
use base_core::{List, Text};
use std::alloc::Global;
use std::process::Abort;
use std::test::Fail;
use work_text::{MemoryShelf, MemorySink};

const PLAIN: &str = "<http://e/a> <http://e/p> <http://e/b> .\n";

const ALL: &str = "bigfed 1\n1 load a.nt\n1 query SELECT * WHERE { ?s ?p ?o }\n";

const ALL_REPORT: &str =
    "opened 0\nsession 1\n1 load time 1\n2 query time 1 rows 1\n?s\t?p\t?o\n<http://e/a>\t<http://e/p>\t<http://e/b>\nhistory 1\n1 1 1\n";

/// A work under the name `w.txt` and a document under `a.nt`.
fn shelf(
    rt: &(impl Abort + AllocGlobal),
    work: &[u8],
    document: &[u8],
    fails: Vec<u64>,
) -> Result<MemoryShelf, Fail> {
    let alloc = rt.alloc();
    let names = vec![in alloc; Text::of(alloc, "w.txt")?, Text::of(alloc, "a.nt")?]?;
    let work = List::of(Vec::from_slice(alloc, work)?);
    let document = List::of(Vec::from_slice(alloc, document)?);
    let documents = vec![in alloc; work, document]?;
    assert_eq!(rt; names.len(), documents.len());
    Ok(MemoryShelf::make(alloc, List::of(names), List::of(documents), fails)?)
}

fn words(alloc: Global, list: &[&str]) -> Result<Vec<String>, Fail> {
    let mut words = Vec::new(alloc);
    for word in list {
        words.push(String::from_str(alloc, word)?)?;
    }
    Ok(words)
}

/// Runs the words over the shelf, and compares what is printed and the status.
pub(crate) fn expect(
    rt: &(impl Abort + AllocGlobal),
    list: &[&str],
    shelf: &mut MemoryShelf,
    status: u8,
    text: &str,
) -> Result<(), Fail> {
    let mut sink = MemorySink::make(rt.alloc(), 1000, Vec::new(rt.alloc()))?;
    let words = words(rt.alloc(), list)?;
    let ended = bigfed(rt.alloc(), words.as_slice(), shelf, &mut sink);
    assert_eq!(rt; sink.bytes(), text.as_bytes());
    assert_eq!(rt; ended.code, status, "after {text}");
    Ok(())
}

/// The same for a work over one document.
pub(crate) fn expect_run(
    rt: &(impl Abort + AllocGlobal),
    work: &str,
    document: &str,
    status: u8,
    text: &str,
) -> Result<(), Fail> {
    let mut shelf = shelf(
        rt,
        work.as_bytes(),
        document.as_bytes(),
        Vec::new(rt.alloc()),
    )?;
    expect(rt, &["replay", "w.txt"], &mut shelf, status, text)
}

#[test]
fn loads_and_queries_are_reported(rt: HostRuntime) -> Result<(), Fail> {
    expect_run(&rt, ALL, PLAIN, 0, ALL_REPORT)?;
    expect_run(
        &rt,
        "bigfed 1\n1 load a.nt\n",
        "",
        0,
        "opened 0\nsession 1\n1 load time 1\nhistory 1\n1 1 1\n",
    )?;
    expect_run(
        &rt,
        "bigfed 1\n1 query SELECT ?s WHERE { ?s ?p ?o }\n",
        PLAIN,
        0,
        "opened 0\nsession 1\n1 query time 0 rows 0\n?s\nhistory 0\n",
    )?;
    expect_run(
        &rt,
        "bigfed 1\n1 load a.nt\n1 load a.nt\n1 query SELECT ?x WHERE { ?s ?p ?o }\n",
        PLAIN,
        0,
        "opened 0\nsession 1\n1 load time 1\n2 load time 2\n3 query time 2 rows 1\n?x\n\nhistory 2\n1 1 1\n2 1 2\n",
    )?;
    expect_run(
        &rt,
        "bigfed 1\n1 load a.nt\n1 query SELECT * WHERE { <http://e/a> <http://e/p> <http://e/b> }\n",
        PLAIN,
        0,
        "opened 0\nsession 1\n1 load time 1\n2 query time 1 rows 1\n\n\nhistory 1\n1 1 1\n",
    )
}

#[test]
fn refused_commands_change_nothing(rt: HostRuntime) -> Result<(), Fail> {
    expect_run(
        &rt,
        "bigfed 1\n1 load a.nt\n",
        "<http://e/a> <http://e/p> <http://e/b> .\n_:a <http://e/p> <http://e/b>\n",
        1,
        "opened 0\nsession 1\n1 load refused line 2\nhistory 0\n",
    )?;
    expect_run(
        &rt,
        "bigfed 1\n1 load b.nt\n1 query ASK { }\n1 load a.nt\n",
        PLAIN,
        1,
        "opened 0\nsession 1\n1 load refused no document\n2 query refused query left out ASK at 0\n3 load time 1\nhistory 1\n1 1 3\n",
    )
}

#[test]
fn words_and_works_are_refused_by_name(rt: HostRuntime) -> Result<(), Fail> {
    let usage = "usage: bigfed replay WORK\n";
    let mut shelf = shelf(&rt, b"bigfed 1\n1 lod a.nt\n", b"", Vec::new(rt.alloc()))?;
    expect(&rt, &[], &mut shelf, 2, usage)?;
    expect(&rt, &["replay"], &mut shelf, 2, usage)?;
    expect(&rt, &["check", "w.txt"], &mut shelf, 2, usage)?;
    expect(&rt, &["replay", "b.txt"], &mut shelf, 2, "no work\n")?;
    expect(
        &rt,
        &["replay", "w.txt"],
        &mut shelf,
        2,
        "bad work line 2\n",
    )
}

#[test]
fn faults_of_the_shelf_are_counted(rt: HostRuntime) -> Result<(), Fail> {
    for call in 1..3u64 {
        let fails = vec![in rt.alloc(); call]?;
        let mut shelf = shelf(&rt, ALL.as_bytes(), PLAIN.as_bytes(), fails)?;
        expect(&rt, &["replay", "w.txt"], &mut shelf, 3, "shelf fault 1\n")?;
    }
    Ok(())
}

#[test]
fn a_sink_may_be_slow_or_fail(rt: HostRuntime) -> Result<(), Fail> {
    let words = words(rt.alloc(), &["replay", "w.txt"])?;
    let mut docs = shelf(&rt, ALL.as_bytes(), PLAIN.as_bytes(), Vec::new(rt.alloc()))?;
    let mut slow = MemorySink::make(rt.alloc(), 1, Vec::new(rt.alloc()))?;
    let ended = bigfed(rt.alloc(), words.as_slice(), &mut docs, &mut slow);
    assert_eq!(rt; slow.bytes(), ALL_REPORT.as_bytes());
    assert_eq!(rt; ended.code, 0);
    let mut faulty = MemorySink::make(rt.alloc(), 1, vec![in rt.alloc(); 6]?)?;
    let ended = bigfed(rt.alloc(), words.as_slice(), &mut docs, &mut faulty);
    assert_eq!(rt; faulty.bytes(), b"opene".as_slice());
    assert_eq!(rt; ended.code, 3);
    Ok(())
}
