//! Queries of several patterns, with rows worked by hand.
use crate::tests::{expect, expect_run};
use crate::tests_indexes::shelf_of_two;
use std::process::Abort;
use std::test::Fail;

const FIVE: &str =
    "<http://e/a> <http://e/p> <http://e/b> .\n<http://e/a> <http://e/p> <http://e/c> .\n<http://e/b> <http://e/p> <http://e/c> .\n<http://e/c> <http://e/q> <http://e/a> .\n<http://e/d> <http://e/p> <http://e/d> .\n";

/// One load of five statements, and this query with the prefix `e:`; the report goes on like this behind the load.
fn expect_query(rt: &(impl Abort + AllocGlobal), query: &str, answer: &str) -> Result<(), Fail> {
    let alloc = rt.alloc();
    let work = format!(in alloc; "bigfed 1\n1 load a.nt\n1 query PREFIX e: <http://e/> {query}\n")?;
    let report = format!(in alloc;
        "opened 0\nsession 1\n1 load time 1\n2 query time 1 {answer}history 1\n1 1 1\n"
    )?;
    expect_run(rt, work.as_str(), FIVE, 0, report.as_str())
}

#[test]
fn patterns_may_make_a_chain_or_a_ring(rt: HostRuntime) -> Result<(), Fail> {
    expect_query(
        &rt,
        "SELECT ?x ?z { ?x e:p ?y . ?y e:p ?z }",
        "rows 2\n?x\t?z\n<http://e/a>\t<http://e/c>\n<http://e/d>\t<http://e/d>\n",
    )?;
    expect_query(
        &rt,
        "SELECT * { ?x e:p ?y . ?y e:p ?z . ?z e:q ?x }",
        "rows 1\n?x\t?y\t?z\n<http://e/a>\t<http://e/b>\t<http://e/c>\n",
    )
}

#[test]
fn a_join_reads_no_triple_that_was_taken_out(rt: HostRuntime) -> Result<(), Fail> {
    let mut shelf = shelf_of_two(
        &rt,
        "bigfed 1\n1 load a.nt\n1 unload b.nt\n1 query PREFIX e: <http://e/> SELECT ?x ?z { ?x e:p ?y . ?y e:p ?z }\n",
        FIVE,
        "<http://e/d> <http://e/p> <http://e/d> .\n",
    )?;
    expect(
        &rt,
        &["replay", "w.txt"],
        &mut shelf,
        0,
        "opened 0\nsession 1\n1 load time 1\n2 unload time 2\n3 query time 2 rows 1\n?x\t?z\n<http://e/a>\t<http://e/c>\nhistory 2\n1 1 1\n2 1 2\n",
    )
}
