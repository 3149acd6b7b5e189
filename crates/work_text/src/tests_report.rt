use super::*;
use base_core::{List, Text, Want};
use bgp_model::{Table, Word};
use change_model::Origin;
use std::alloc::Global;
use std::process::Abort;
use std::test::Fail;
use term_core::Term;

/// A line of a session for each, with the verb that is said.
fn lines(alloc: Global, told: &[(u32, &str)]) -> Result<Work, Want> {
    let mut lines = Vec::new(alloc);
    for (session, verb) in told {
        lines.push(Line {
            session: *session,
            command: command(alloc, verb)?,
        })?;
    }
    Ok(Work {
        lines: List::of(lines),
    })
}

fn command(alloc: Global, verb: &str) -> Result<Command, Want> {
    if verb == "load" {
        return Ok(Command::Load(Text::of(alloc, "a.nt")?));
    }
    if verb == "unload" {
        return Ok(Command::Unload(Text::of(alloc, "a.nt")?));
    }
    if verb == "queryfile" {
        return Ok(Command::QueryFile(Text::of(alloc, "q.rq")?));
    }
    let text = Vec::from_slice(alloc, b"SELECT * WHERE { ?s ?p ?o }")?;
    Ok(Command::Query(List::of(text)))
}

fn origins(alloc: Global, told: &[(u32, u32)]) -> Result<List<Origin>, Want> {
    let mut origins = Vec::new(alloc);
    for (session, command) in told {
        origins.push(Origin {
            session: *session,
            command: *command,
        })?;
    }
    Ok(List::of(origins))
}

fn answered(alloc: Global, time: u64, names: &[&str], rows: Table) -> Result<Outcome, Want> {
    let mut columns = Vec::new(alloc);
    for name in names {
        columns.push(Text::of(alloc, name)?)?;
    }
    Ok(Outcome::Answered {
        time,
        columns: List::of(columns),
        rows,
    })
}

/// Rows of so many columns, by the places of their cells among the IRIs.
fn table(
    alloc: Global,
    iris: &[&str],
    columns: usize,
    rows: &[&[Option<u32>]],
) -> Result<Table, Want> {
    let mut terms = Vec::new(alloc);
    for iri in iris {
        terms.push(Term::Iri(Text::of(alloc, iri)?))?;
    }
    let mut places = Vec::new(alloc);
    for row in rows {
        places.extend_from_slice(row)?;
    }
    Table::of(alloc, terms, columns, rows.len(), places)
}

fn expect(
    rt: &(impl Abort + AllocGlobal),
    report: &RunReport,
    work: &Work,
    text: &str,
) -> Result<(), Want> {
    let mut out = Vec::new(rt.alloc());
    out.extend_from_slice(b"before\n")?;
    let commits = report.origins.items().len();
    assert!(rt; report.opened < 100);
    assert!(rt; commits < 100);
    write_report(rt.alloc(), report, work, &mut out)?;
    let (before, printed) = out.as_slice().split_at(out.len().min(7));
    assert_eq!(rt; before, b"before\n".as_slice());
    assert_eq!(rt; printed, text.as_bytes());
    Ok(())
}

fn first_outcomes(alloc: Global) -> Result<List<Outcome>, Want> {
    let empty = answered(alloc, 10, &["s", "long_name"], table(alloc, &[], 2, &[])?)?;
    let outcomes = vec![in alloc;
        Outcome::Changed { time: 10 },
        empty,
        Outcome::NoDocument,
        Outcome::DocumentTooLarge,
        Outcome::BadLine { line: 4294967295 },
        Outcome::TermTooLong { line: 2 },
        Outcome::TooManyStatements { line: 100001 },
        Outcome::LabelInRemoval { line: 1 },
        Outcome::TooManyPatterns,
    ]?;
    Ok(List::of(outcomes))
}

fn third_outcomes(alloc: Global) -> Result<List<Outcome>, Want> {
    let outcomes = vec![in alloc;
        Outcome::Changed { time: 11 },
        Outcome::TooManyRows { time: 11 },
    ]?;
    Ok(List::of(outcomes))
}

/// The second session has no commands, and the third one's lines stand between those of the first.
#[test]
fn each_outcome_is_printed(rt: HostRuntime) -> Result<(), Fail> {
    let alloc = rt.alloc();
    let outcomes = vec![in alloc;
        first_outcomes(alloc)?,
        List::of(Vec::new(alloc)),
        third_outcomes(alloc)?,
    ]?;
    let report = RunReport {
        opened: 9,
        outcomes: List::of(outcomes),
        origins: origins(alloc, &[(1, 1), (3, 1)])?,
    };
    let told = [
        (1, "load"),
        (1, "query"),
        (3, "unload"),
        (1, "load"),
        (1, "load"),
        (3, "query"),
        (1, "load"),
        (1, "load"),
        (1, "load"),
        (1, "unload"),
        (1, "query"),
    ];
    let text = "opened 9\nsession 1\n1 load time 10\n2 query time 10 rows 0\n?s\t?long_name\n\
        3 load refused no document\n4 load refused document too large\n\
        5 load refused line 4294967295\n6 load refused term too long line 2\n\
        7 load refused too many statements line 100001\n8 unload refused label in removal line 1\n\
        9 query refused too many patterns\nsession 3\n\
        1 unload time 11\n2 query refused too many rows time 11\nhistory 2\n10 1 1\n11 3 1\n";
    expect(&rt, &report, &lines(alloc, &told)?, text)?;
    Ok(())
}

#[test]
fn refused_queries_are_printed_with_their_places(rt: HostRuntime) -> Result<(), Fail> {
    let alloc = rt.alloc();
    let outcomes = vec![in alloc;
        Outcome::QueryAt { place: 17 },
        Outcome::QueryLeftOut {
            place: 26,
            word: Word::Filter
        },
        Outcome::QueryLeftOut {
            place: 0,
            word: Word::OpeningBrace
        },
    ]?;
    let report = RunReport {
        opened: 0,
        outcomes: List::of(vec![in alloc; List::of(outcomes)]?),
        origins: List::of(Vec::new(alloc)),
    };
    let told = [(1, "query"), (1, "queryfile"), (1, "query")];
    let text = "opened 0\nsession 1\n1 query refused query at 17\n\
        2 query refused query left out FILTER at 26\n3 query refused query left out { at 0\nhistory 0\n";
    expect(&rt, &report, &lines(alloc, &told)?, text)?;
    Ok(())
}
