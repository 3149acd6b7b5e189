//! Loads and queries over the indexes.
use crate::tests::expect_run;
use base_core::{List, Text};
use std::process::Abort;
use std::test::Fail;
use work_text::MemoryShelf;

const THREE: &str =
    "<http://e/a> <http://e/p> <http://e/b> .\n<http://e/a> <http://e/q> <http://e/c> .\n<http://e/c> <http://e/p> <http://e/b> .\n";

/// One load of three statements, and this query; the report goes on like this behind the load.
fn expect_query(rt: &(impl Abort + AllocGlobal), query: &str, answer: &str) -> Result<(), Fail> {
    let alloc = rt.alloc();
    let work = format!(in alloc; "bigfed 1\n1 load a.nt\n1 query {query}\n")?;
    let report = format!(in alloc;
        "opened 0\nsession 1\n1 load time 1\n2 query time 1 {answer}history 1\n1 1 1\n"
    )?;
    expect_run(rt, work.as_str(), THREE, 0, report.as_str())
}

#[test]
fn two_positions_may_be_bound(rt: HostRuntime) -> Result<(), Fail> {
    expect_query(
        &rt,
        "SELECT ?o WHERE { <http://e/a> <http://e/q> ?o }",
        "rows 1\n?o\n<http://e/c>\n",
    )?;
    expect_query(
        &rt,
        "SELECT ?p WHERE { <http://e/c> ?p <http://e/b> }",
        "rows 1\n?p\n<http://e/p>\n",
    )?;
    expect_query(
        &rt,
        "SELECT ?s WHERE { ?s <http://e/p> <http://e/b> }",
        "rows 2\n?s\n<http://e/a>\n<http://e/c>\n",
    )
}

/// A work and two documents.
pub(crate) fn shelf_of_two(
    rt: &(impl Abort + AllocGlobal),
    work: &str,
    first: &str,
    second: &str,
) -> Result<MemoryShelf, Fail> {
    let alloc = rt.alloc();
    let names = vec![in alloc;
        Text::of(alloc, "w.txt")?,
        Text::of(alloc, "a.nt")?,
        Text::of(alloc, "b.nt")?,
    ]?;
    let work = List::of(Vec::from_slice(alloc, work.as_bytes())?);
    let first = List::of(Vec::from_slice(alloc, first.as_bytes())?);
    let second = List::of(Vec::from_slice(alloc, second.as_bytes())?);
    let documents = vec![in alloc; work, first, second]?;
    assert_eq!(rt; names.len(), documents.len());
    Ok(MemoryShelf::make(alloc, List::of(names), List::of(documents), Vec::new(alloc))?)
}

#[test]
fn a_query_reads_more_keys_than_one_chunk_has(rt: HostRuntime) -> Result<(), Fail> {
    let alloc = rt.alloc();
    let mut document = String::new(alloc);
    let mut rows = String::new(alloc);
    for number in 0..600u32 {
        let line = format!(in alloc; "<http://e/{number}> <http://e/p> <http://e/b> .\n")?;
        document.push_str(line.as_str())?;
        rows.push_str("\n")?;
    }
    let report = format!(in alloc;
        "opened 0\nsession 1\n1 load time 1\n2 query time 1 rows 600\n?x\n{rows}history 1\n1 1 1\n"
    )?;
    expect_run(
        &rt,
        "bigfed 1\n1 load a.nt\n1 query SELECT ?x WHERE { ?s <http://e/p> <http://e/b> }\n",
        document.as_str(),
        0,
        report.as_str(),
    )
}
