//! Texts and their exact answers, a table for each subject. A line of a table is an answer, ` => ` and a text.
//!
//! In a text `¶` stands for LF, `↵` for CR, `→` for a tab, `✗` for a byte that begins no character, and `§`, which is
//! left out, marks the place at which reading stops. An answer is `at` or `out` and a word, where that is the place;
//! `many`; or the selected variables, a colon and the patterns, with labels by their numbers.
use super::*;
use base_core::Want;
use bgp_model::{Pattern, Query, Slot};
use nt_text::write_term;
use std::alloc::{AllocError, Global};
use std::test::Fail;

/// A text, and the place that is marked in it.
#[derive(Drop)]
struct Marked {
    bytes: Vec<u8>,
    place: usize,
}

fn push_mark(text: &mut Marked, c: char) -> Result<(), AllocError> {
    match c {
        '¶' => text.bytes.push(b'\n')?,
        '↵' => text.bytes.push(b'\r')?,
        '→' => text.bytes.push(b'\t')?,
        '✗' => text.bytes.push(0xff)?,
        '§' => text.place = text.bytes.len(),
        _ => {
            let mut buffer = [0; 4];
            let code = c.encode_utf8(&mut buffer);
            text.bytes.extend_from_slice(code.as_bytes())?;
        }
    }
    Ok(())
}

fn unmarked(alloc: Global, line: &str) -> Result<Marked, AllocError> {
    let mut text = Marked {
        bytes: Vec::new(alloc),
        place: 0,
    };
    for c in line.chars() {
        push_mark(&mut text, c)?;
    }
    Ok(text)
}

fn push_slot(alloc: Global, names: &Query, slot: &Slot, out: &mut Vec<u8>) -> Result<(), Want> {
    match slot {
        Slot::Fixed(term) => write_term(alloc, term, out),
        Slot::Var(name) => push_name(names, *name, out),
        Slot::Label(label) => {
            let shown = format!(in alloc; "_:{label}")?;
            out.extend_from_slice(shown.as_bytes())?;
            Ok(())
        }
    }
}

fn push_name(query: &Query, name: u32, out: &mut Vec<u8>) -> Result<(), Want> {
    out.push(b'?')?;
    if let Some(name) = query.names.items().get(name as usize) {
        out.extend_from_slice(name.text().as_bytes())?;
    }
    Ok(())
}

fn push_pattern(
    alloc: Global,
    query: &Query,
    pattern: &Pattern,
    out: &mut Vec<u8>,
) -> Result<(), Want> {
    out.push(b' ')?;
    push_slot(alloc, query, &pattern.subject, out)?;
    out.push(b' ')?;
    push_slot(alloc, query, &pattern.predicate, out)?;
    out.push(b' ')?;
    push_slot(alloc, query, &pattern.object, out)?;
    out.extend_from_slice(b" .")?;
    Ok(())
}

fn shown(alloc: Global, query: &Query) -> Result<Vec<u8>, Want> {
    let mut out = Vec::new(alloc);
    for column in query.columns.items() {
        push_name(query, *column, &mut out)?;
        out.push(b' ')?;
    }
    out.push(b':')?;
    for pattern in query.patterns.items() {
        push_pattern(alloc, query, pattern, &mut out)?;
    }
    Ok(out)
}

/// `word`, with the place where it isn't the marked one.
fn placed(alloc: Global, word: &str, place: u32, wanted: usize) -> Result<String, AllocError> {
    if place as usize == wanted {
        return format!(in alloc; "{word}");
    }
    format!(in alloc; "{word} {place}")
}

fn fault_shown(alloc: Global, fault: QueryFault, wanted: usize) -> Result<String, AllocError> {
    match fault {
        QueryFault::NoMemory => format!(in alloc; "no memory"),
        QueryFault::At { place } => placed(alloc, "at", place, wanted),
        QueryFault::LeftOut { place, word } => {
            let out = format!(in alloc; "out {word}")?;
            placed(alloc, out.as_str(), place, wanted)
        }
        QueryFault::TooManyPatterns => format!(in alloc; "many"),
    }
}

fn answer(alloc: Global, line: &str) -> Result<Vec<u8>, Want> {
    let text = unmarked(alloc, line)?;
    if text.bytes.len() > LARGEST_QUERY {
        return Ok(Vec::new(alloc));
    }
    match read_query(alloc, &text.bytes) {
        Ok(query) => shown(alloc, &query),
        Err(fault) => Ok(fault_shown(alloc, fault, text.place)?.into_bytes()),
    }
}

/// Adds the line to the wrong ones if its text has another answer.
fn check_line(alloc: Global, line: &str, wrong: &mut String) -> Result<(), Fail> {
    let Some((wanted, text)) = line.split_once(" => ") else {
        return Ok(());
    };
    let found = answer(alloc, text)?;
    if found.as_slice() != wanted.as_bytes() {
        let found = found.as_slice();
        write!(wrong, "{line}\n    {found:?}\n")?;
    }
    Ok(())
}

/// The lines of the table whose texts have other answers.
pub fn wrong_lines(alloc: Global, table: &str) -> Result<String, Fail> {
    let mut wrong = String::new(alloc);
    for line in table.lines() {
        check_line(alloc, line, &mut wrong)?;
    }
    Ok(wrong)
}

const WORDS: &str = r#"
out BASE => §BASE <http://e/> SELECT * { }
out ASK => §ASK { }
out CONSTRUCT => §CONSTRUCT { ?s ?p ?o } WHERE { ?s ?p ?o }
out DESCRIBE => PREFIX ex: <http://e/> §DESCRIBE ex:a
out DISTINCT => SELECT §DISTINCT ?s { ?s ?p ?o }
out REDUCED => SELECT §REDUCED ?s { ?s ?p ?o }
out FROM => SELECT * §FROM <http://e/g> { }
out GROUP => SELECT * { } §GROUP BY ?s
out HAVING => SELECT * { } §HAVING(?s)
out ORDER => SELECT * { } §ORDER BY ?s
out LIMIT => SELECT * { } §LIMIT 1
out OFFSET => SELECT * { }§OFFSET 1
out VALUES => SELECT * { §VALUES ?x { 1 } }
out FILTER => SELECT * WHERE { ?s ?p ?o §FILTER(?o) }
out OPTIONAL => SELECT * { ?s ?p ?o . §OPTIONAL { ?s ?q ?r } }
out UNION => SELECT * { ?s ?p §UNION }
out MINUS => SELECT * { ?s §MINUS { } }
out GRAPH => SELECT * { §GRAPH ?g { } }
out SERVICE => SELECT * { ?s ?p ?o ; §SERVICE ?g { } }
out BIND => SELECT * { ?s ?p ?o , §BIND(1 AS ?x) }
out INSERT => §INSERT DATA { }
out DELETE => §DELETE WHERE { }
out LOAD => §LOAD <http://e/g>
out CLEAR => §CLEAR ALL
out CREATE => §CREATE GRAPH <http://e/g>
out DROP => §DROP ALL
out COPY => §COPY DEFAULT TO <http://e/g>
out MOVE => §MOVE DEFAULT TO <http://e/g>
out ADD => §ADD DEFAULT TO <http://e/g>
out WITH => §WITH <http://e/g> DELETE { } WHERE { }
out DOUBLE => SELECT * { ?s ?p §1e3 }
out DOUBLE => SELECT * { ?s ?p §-1.5E-2 }
out DOUBLE => SELECT * { ?s ?p §+1.e3 }
out DOUBLE => SELECT * { ?s ?p §.5e1 }
out DOUBLE => §1e1
out LONG => SELECT * { ?s ?p §"""x""" }
out LONG => SELECT * { ?s ?p §'''x''' }
out ( => SELECT §(?s AS ?t) { }
out [ => SELECT * { §[ ?p ?o ] }
out / => SELECT * { ?s <http://e/p>§/<http://e/q> ?o }
out | => SELECT * { ?s <http://e/p>§|<http://e/q> ?o }
out ^ => SELECT * { ?s §^<http://e/p> ?o }
out ^ => SELECT * { ?s ?p "a"§^ ^<http://e/t> }
out ! => SELECT * { ?s §!<http://e/p> ?o }
out + => SELECT * { ?s <http://e/p>§+ ?o }
out + => SELECT * { ?s ?p §+ 1 }
out * => SELECT * { ?s <http://e/p>§* ?o }
out * => SELECT * §*{ }
out * => SELECT ?x §* { }
out ? => SELECT * { ?s <http://e/p>§? ?o }
out ? => SELECT §?
out % => SELECT * { ?s ?p 1§%2 }
out \ => SELECT * { ?s ?p ?o§\ }
out { => SELECT * { §{ } }
out { => SELECT §{ }
out { => §{ }
"#;

#[test]
fn words_that_are_left_out_are_named(rt: HostRuntime) -> Result<(), Fail> {
    let wrong = wrong_lines(rt.alloc(), WORDS)?;
    assert!(rt; wrong.is_empty(), "{wrong}");
    Ok(())
}

const STOPS: &str = r#"
at => §
at =>   → ¶ ↵ §
at => # a remark§
at => # a remark¶§
at => PREFIX§
at => PREFIX §a <http://e/>
at => PREFIX §<http://e/> SELECT * { }
at => PREFIX §ex:a <http://e/> SELECT * { }
at => PREFIX ex:§
at => PREFIX ex: §ex:
at => PREFIX ex: §"http://e/" SELECT * { }
at => PREFIX ex: <http://e/>§
at => SELECT§
at => SELECT §<http://e/a> { }
at => SELECT §"a" { }
at => SELECT §1 { }
at => SELECT §_:a { }
at => SELECT §WHERE { }
at => SELECT *§
at => SELECT * §?x { }
at => SELECT ?x ?y§
at => SELECT * WHERE§
at => SELECT * WHERE §WHERE { }
at => SELECT * WHERE §?s ?p ?o
at => SELECT * {§
at => SELECT * {  # a remark¶  §
at => SELECT * { ?s§
at => SELECT * { ?s §}
at => SELECT * { ?s ?p §}
at => SELECT * { ?s ?p ?o§
at => SELECT * { ?s ?p ?o .§
at => SELECT * { ?s ?p ?o ;§
at => SELECT * { ?s ?p ?o ,§
at => SELECT * { ?s ?p ?o , §}
at => SELECT * { ?s ?p ?o , §. }
at => SELECT * { ?s ?p ?o . §. }
at => SELECT * { ?s ?p ?o §?q ?r }
at => SELECT * { §. }
at => SELECT * { §; }
at => SELECT * { §, }
at => SELECT * { ?s ?p ?o §) }
at => SELECT * { ?s ?p ?o §] }
at => SELECT * { ?s §^^ ?o }
at => SELECT * { } §}
at => SELECT * { } §SELECT
at => SELECT * { } §.
at => SELECT * §}
at => §}
at => §?x
at => §a
at => §select:a
at => SELECT * { §a ?p ?o }
at => SELECT * { ?s §A ?o }
at => SELECT * { ?s §_:b ?o }
at => SELECT * { ?s §"b" ?o }
at => SELECT * { ?s §true ?o }
at => SELECT * { ?s §1 ?o }
at => SELECT * { §ex:a ?p ?o }
at => PREFIX ex: <http://e/> SELECT * { §ey:a ?p ?o }
at => PREFIX ex: <http://e/> SELECT * { §EX:a ?p ?o }
at => PREFIX ex: <http://e/> SELECT * { §: ?p ?o }
at => SELECT * { ?s ?p "a"§"b" }
at => SELECT * { ?s ?p "a"^^§
at => SELECT * { ?s ?p "a"^^§"b" }
at => SELECT * { ?s ?p "a"^^§?t }
at => SELECT * { ?s ?p "a"^^§a }
at => SELECT * { ?s ?p "a"^^§ex:a }
at => SELECT * { ?s ?p "a"@en §@en }
at => SELECT * { ?s ?p "a"@en §^^ <http://e/t> }
at => SELECT * { ?s ?p <http://e/o> §@en }
"#;

#[test]
fn reading_stops_where_no_query_goes_on(rt: HostRuntime) -> Result<(), Fail> {
    let wrong = wrong_lines(rt.alloc(), STOPS)?;
    assert!(rt; wrong.is_empty(), "{wrong}");
    Ok(())
}

const NO_TOKENS: &str = r#"
at => §@
at => SELECT §$ { }
at => SELECT * { §_ ?p ?o }
at => SELECT * { §_: ?p ?o }
at => SELECT * { §& }
at => SELECT * { ?s ?p §- }
at => SELECT * { ?s ?p "a"§@ }
at => SELECT * { ?s ?p "a"§@1 }
at => SELECT * { ?s ?p "a"@en§- }
at => SELECT * { ?s ?p "a"@en§1 }
at => SELECT * { ?s §<a b> ?o }
at => SELECT * { ?s §<a ?o }
at => SELECT * { ?s §<a{b> ?o }
at => SELECT * { ?s §<a\u0020b> ?o }
at => SELECT * { ?s §<a\n> ?o }
at => SELECT * { ?s §<a\u12> ?o }
at => SELECT * { ?s ?p §"abc }
at => SELECT * { ?s ?p §"a¶b" }
at => SELECT * { ?s ?p §'a↵b' }
at => SELECT * { ?s ?p §'a"b }
at => SELECT * { ?s ?p §"a\" }
at => SELECT * { ?s ?p §"\q" }
at => SELECT * { ?s ?p §"\u00" }
at => SELECT * { ?s ?p §"\uD800" }
at => SELECT * { ?s ?p §"\U00110000" }
at => §✗
at => SELECT ?a§✗
at => SELECT * §✗{ }
at => # a remark §✗¶SELECT * { }
at => SELECT * { ?s ?p §"a✗" }
at => SELECT * { ?s §<a✗> ?o }
at => SELECT * { } §✗
at => SELECT * { } # é §✗
at => SELECT * { §é: ?p ✗
at => SELECT * { ?é ?ŷ "→é" . §é }
"#;

#[test]
fn reading_stops_where_no_token_begins(rt: HostRuntime) -> Result<(), Fail> {
    let wrong = wrong_lines(rt.alloc(), NO_TOKENS)?;
    assert!(rt; wrong.is_empty(), "{wrong}");
    Ok(())
}
