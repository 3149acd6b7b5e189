ghost use Rattle.std.specs.Prelude.{◌≡◌, ◌<◌, length, IfOk};
ghost use Rattle.std.specs.List.{AllByRecursion};
ghost use Rattle.bgp_model.specs.declared.query.Query.{Query as Asked};
ghost use Rattle.bgp_model.specs.Solutions.{HasPlaces, IsPlaced};

use super::*;
use base_core::{List, Text, Want};
use std::alloc::Global;
use std::test::Fail;
use term_core::{Statement, Term};

/// Four statements, of which the third says what the first does.
const REPEATED: &[[&str; 3]] = &[
    ["e:a", "e:p", "e:b"],
    ["e:c", "e:q", "e:c"],
    ["e:a", "e:p", "e:b"],
    ["e:a", "e:p", "e:c"],
];

/// Two statements with the same subject and predicate.
const TWO: &[[&str; 3]] = &[["e:a", "e:p", "e:b"], ["e:a", "e:p", "e:c"]];

/// A ring of three, and one short cut.
const RING: &[[&str; 3]] = &[
    ["e:a", "e:p", "e:b"],
    ["e:b", "e:p", "e:c"],
    ["e:c", "e:p", "e:a"],
    ["e:a", "e:q", "e:c"],
];

fn iri(alloc: Global, text: &str) -> Result<Term, Want> {
    Ok(Term::Iri(Text::of(alloc, text)?))
}

fn graph(alloc: Global, triples: &[[&str; 3]]) -> Result<List<Statement>, Want> {
    let mut statements = Vec::new(alloc);
    for [subject, predicate, object] in triples {
        statements.push(Statement {
            subject: iri(alloc, subject)?,
            predicate: iri(alloc, predicate)?,
            object: iri(alloc, object)?,
        })?;
    }
    Ok(List::of(statements))
}

/// A slot of a query with the variables `?x ?y ?z` and the labels `_:a _:b`.
fn slot(alloc: Global, text: &str) -> Result<Slot, Want>
    ensures { IfOk result (λ made. (query : Asked) → length query.names ≡ 3 → query.labels ≡ 2 → IsPlaced query made) }
{
    match text {
        "?x" => Ok(Slot::Var(0)),
        "?y" => Ok(Slot::Var(1)),
        "?z" => Ok(Slot::Var(2)),
        "_:a" => Ok(Slot::Label(0)),
        "_:b" => Ok(Slot::Label(1)),
        _ => Ok(Slot::Fixed(iri(alloc, text)?)),
    }
}

fn patterns(alloc: Global, texts: &[[&str; 3]]) -> Result<List<Pattern>, Want>
    ensures { IfOk result (λ made. (query : Asked) → length query.names ≡ 3 → query.labels ≡ 2
        → AllByRecursion (λ pattern. IsPlaced query pattern.subject × IsPlaced query pattern.predicate × IsPlaced query pattern.object) made) }
{
    let mut made = Vec::new(alloc);
    'patterns: for [subject, predicate, object] in texts {
        made.push(Pattern {
            subject: slot(alloc, subject)?,
            predicate: slot(alloc, predicate)?,
            object: slot(alloc, object)?,
        })?;
    }
    Ok(List::of(made))
}

/// The columns of these letters.
fn columns(alloc: Global, names: &str) -> Result<List<u32>, Want>
    ensures { IfOk result (λ made. AllByRecursion (λ column. column < 3) made) }
{
    match names {
        "xyz" => Ok(List::of(vec![in alloc; 0, 1, 2]?)),
        "yy" => Ok(List::of(vec![in alloc; 1, 1]?)),
        "y" => Ok(List::of(vec![in alloc; 1]?)),
        "z" => Ok(List::of(vec![in alloc; 2]?)),
        _ => Ok(List::of(Vec::new(alloc))),
    }
}

fn query(alloc: Global, selected: &str, texts: &[[&str; 3]]) -> Result<Query, Want>
    ensures { IfOk result HasPlaces }
{
    let x = Text::of(alloc, "x")?;
    let y = Text::of(alloc, "y")?;
    let z = Text::of(alloc, "z")?;
    let names = List::of(vec![in alloc; x, y, z]?);
    let patterns = patterns(alloc, texts)?;
    let columns = columns(alloc, selected)?;
    Ok(Query {
        names,
        labels: 2,
        patterns,
        columns,
    })
}

/// The lines of the rows that are selected.
fn printed(
    alloc: Global,
    triples: &[[&str; 3]],
    selected: &str,
    texts: &[[&str; 3]],
) -> Result<Vec<u8>, Fail> {
    let query = query(alloc, selected, texts)?;
    let rows = solve_plainly(alloc, &graph(alloc, triples)?, &query, 3)?;
    let mut text = Vec::new(alloc);
    for row in rows.items() {
        row_line(alloc, row, &mut text)?;
        text.push(b'\n')?;
    }
    Ok(text)
}

/// Whether these are the lines of the rows that are selected.
fn prints(
    alloc: Global,
    triples: &[[&str; 3]],
    selected: &str,
    texts: &[[&str; 3]],
    lines: &str,
) -> Result<bool, Fail> {
    let text = printed(alloc, triples, selected, texts)?;
    Ok(text.as_slice() == lines.as_bytes())
}

#[test]
fn equal_rows_stand_as_often_as_they_come(rt: HostRuntime) -> Result<(), Fail> {
    let alloc = rt.alloc();
    assert!(rt; prints(alloc, TWO, "y", &[["_:a", "?y", "_:b"]], "<e:p>\n<e:p>\n")?);
    Ok(())
}

#[test]
fn a_pattern_that_is_written_twice_counts_once(rt: HostRuntime) -> Result<(), Fail> {
    let alloc = rt.alloc();
    let twice = [["?x", "?y", "?z"], ["?x", "?y", "?z"]];
    assert!(rt; prints(alloc, TWO, "z", &twice, "<e:b>\n<e:c>\n")?);
    Ok(())
}

#[test]
fn patterns_join_on_what_they_share(rt: HostRuntime) -> Result<(), Fail> {
    let alloc = rt.alloc();
    let chain = [
        ["?x", "e:p", "?y"],
        ["?y", "e:p", "?z"],
        ["?x", "e:q", "?z"],
    ];
    assert!(rt; prints(alloc, RING, "xyz", &chain, "<e:a>\t<e:b>\t<e:c>\n")?);
    let triangle = [
        ["?x", "e:p", "?y"],
        ["?y", "e:p", "?z"],
        ["?z", "e:p", "?x"],
    ];
    let turns = "<e:a>\t<e:b>\t<e:c>\n<e:b>\t<e:c>\t<e:a>\n<e:c>\t<e:a>\t<e:b>\n";
    assert!(rt; prints(alloc, RING, "xyz", &triangle, turns)?);
    let back = [["?x", "e:p", "?y"], ["?y", "e:q", "?x"]];
    assert!(rt; prints(alloc, RING, "xyz", &back, "<e:c>\t<e:a>\t\n")?);
    let none = [["?x", "e:q", "?y"], ["?y", "e:q", "?z"]];
    assert!(rt; prints(alloc, RING, "xyz", &none, "")?);
    Ok(())
}

#[test]
fn more_rows_than_the_most_are_refused(rt: HostRuntime) -> Result<(), Fail> {
    let alloc = rt.alloc();
    let all = [["?x", "?y", "?z"]];
    assert!(rt;
        prints(
            alloc,
            REPEATED,
            "yy",
            &all,
            "<e:p>\t<e:p>\n<e:p>\t<e:p>\n<e:q>\t<e:q>\n"
        )?
    );
    let query = query(alloc, "yy", &all)?;
    let fault = solve_plainly(alloc, &graph(alloc, REPEATED)?, &query, 2).err();
    assert_eq!(rt; fault, Some(BgpFault::TooMany));
    Ok(())
}

#[test]
fn terms_of_a_query_stand_where_they_first_stand(rt: HostRuntime) -> Result<(), Fail> {
    let alloc = rt.alloc();
    let texts = [
        ["e:b", "e:a", "?x"],
        ["_:a", "e:a", "e:c"],
        ["e:c", "?y", "e:b"],
    ];
    let terms = query_terms(alloc, &query(alloc, "", &texts)?)?;
    let [first, second, third] = terms.items() else {
        assert!(rt; false, "three terms");
        return Ok(());
    };
    assert!(rt; first.equals(&iri(alloc, "e:b")?));
    assert!(rt; second.equals(&iri(alloc, "e:a")?));
    assert!(rt; third.equals(&iri(alloc, "e:c")?));
    Ok(())
}
