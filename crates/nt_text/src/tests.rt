use super::*;
use base_core::{Text, Want};
use std::alloc::Global;
use std::test::Fail;
use term_core::Term;

fn iri(alloc: Global, text: &str) -> Result<Term, Want> {
    Ok(Term::Iri(Text::of(alloc, text)?))
}

fn literal(alloc: Global, form: &str, datatype: &str) -> Result<Term, Want> {
    Ok(Term::Literal {
        form: Text::of(alloc, form)?,
        datatype: Text::of(alloc, datatype)?,
    })
}

fn tagged(alloc: Global, form: &str, tag: &str) -> Result<Term, Want> {
    Ok(Term::Tagged {
        form: Text::of(alloc, form)?,
        tag: Text::of(alloc, tag)?,
    })
}

fn blank(alloc: Global, at: u64, label: &str) -> Result<Term, Want> {
    Ok(Term::Blank {
        at,
        label: Text::of(alloc, label)?,
    })
}

const XSD_STRING: &str = "http://www.w3.org/2001/XMLSchema#string";

fn cell(alloc: Global, term: Term) -> Result<Vec<u8>, Fail> {
    let mut out = Vec::new(alloc);
    write_term(alloc, &term, &mut out)?;
    Ok(out)
}

#[test]
fn terms_are_printed(rt: HostRuntime) -> Result<(), Fail> {
    let alloc = rt.alloc();
    let plain_cell = cell(alloc, literal(alloc, "\"\\\n\r\t", XSD_STRING)?)?;
    assert_eq!(rt; plain_cell.as_slice(), b"\"\\\"\\\\\\n\\r\\t\"".as_slice());
    let typed_cell = cell(
        alloc,
        literal(alloc, "42", "http://www.w3.org/2001/XMLSchema#integer")?,
    )?;
    assert_eq!(rt;
        typed_cell.as_slice(),
        b"\"42\"^^<http://www.w3.org/2001/XMLSchema#integer>".as_slice()
    );
    let tagged_cell = cell(alloc, tagged(alloc, "Alice", "en")?)?;
    assert_eq!(rt; tagged_cell.as_slice(), b"\"Alice\"@en".as_slice());
    let iri_cell = cell(alloc, iri(alloc, "http://e/a")?)?;
    assert_eq!(rt; iri_cell.as_slice(), b"<http://e/a>".as_slice());
    let blank_cell = cell(alloc, blank(alloc, 1, "a")?)?;
    assert_eq!(rt; blank_cell.as_slice(), b"_:c1.a".as_slice());
    Ok(())
}

/// The document, where the bytes are few enough.
fn document_of(alloc: Global, bytes: &[u8]) -> Result<Document, DocFault> {
    if bytes.len() > LARGEST_DOCUMENT {
        return Err(DocFault::NoMemory);
    }
    read_document(alloc, bytes)
}

/// The count of statements, or the fault.
fn read(alloc: Global, bytes: &[u8]) -> Result<usize, DocFault> {
    let document = document_of(alloc, bytes)?;
    Ok(document.statements.items().len())
}

fn line(number: u32) -> Result<usize, DocFault> {
    Err(DocFault::Line { line: number })
}

#[test]
fn lines_end_anyhow(rt: HostRuntime) {
    let alloc = rt.alloc();
    assert_eq!(rt; read(alloc, b""), Ok(0));
    assert_eq!(rt; read(alloc, b"<a:a> <a:p> <a:b> ."), Ok(1));
    assert_eq!(rt;
        read(alloc, b"<a:a> <a:p> <a:b> .\r<a:a> <a:p> <a:c> .\n"),
        Ok(2)
    );
    assert_eq!(rt;
        read(alloc, b"<a:a> <a:p> <a:b> .\r\n<a:a> <a:p> <a:c> .\r\n"),
        Ok(2)
    );
    assert_eq!(rt;
        read(alloc, b"\n \t\n<a:a><a:p><a:b>.\n# a remark\n"),
        Ok(1)
    );
    assert_eq!(rt; read(alloc, b" <a:a>\t<a:p> <a:b> . # a remark"), Ok(1));
}

#[test]
fn labels_end_where_they_should(rt: HostRuntime) {
    let alloc = rt.alloc();
    assert_eq!(rt; read(alloc, b"_:a.b <a:p> _:a."), Ok(1));
    assert_eq!(rt; read(alloc, b"_:0<a:p>_:\xc3\xa9 ."), Ok(1));
    assert_eq!(rt; read(alloc, b"_:a. <a:p> _:a ."), line(1));
    assert_eq!(rt; read(alloc, b"_:a <a:p> _:a.."), line(1));
    assert_eq!(rt; read(alloc, b"_:-a <a:p> _:a ."), line(1));
    assert_eq!(rt; read(alloc, b"_: <a:p> _:a ."), line(1));
    assert_eq!(rt; read(alloc, b"_:\xc3\x97 <a:p> _:a ."), line(1));
}

/// The cell of the object of the first statement; nothing where there is none.
fn object_cell(alloc: Global, bytes: &[u8]) -> Result<Vec<u8>, Fail> {
    let mut out = Vec::new(alloc);
    let document = document_of(alloc, bytes)?;
    if let Some(statement) = document.statements.items().first() {
        write_term(alloc, &statement.object, &mut out)?;
    }
    Ok(out)
}

#[test]
fn texts_mean_what_they_escape(rt: HostRuntime) -> Result<(), Fail> {
    let alloc = rt.alloc();
    let raw = object_cell(alloc, b"<a:a> <a:p> \"x\ty\" .")?;
    assert_eq!(rt; raw.as_slice(), b"\"x\\ty\"".as_slice());
    let escaped = object_cell(alloc, b"<a:a> <a:p> \"x\\ty\" .")?;
    assert_eq!(rt; escaped.as_slice(), b"\"x\\ty\"".as_slice());
    let letters = object_cell(alloc, b"<a:a> <a:p> \"\\b\\f\\'\\\"\\\\\\r\\n\" .")?;
    assert_eq!(rt;
        letters.as_slice(),
        b"\"\x08\x0c'\\\"\\\\\\r\\n\"".as_slice()
    );
    let named = object_cell(alloc, b"<a:a> <a:p> \"\\u00e9\\U0001F600\"^^<a:\\u00E9> .")?;
    assert_eq!(rt;
        named.as_slice(),
        b"\"\xc3\xa9\xf0\x9f\x98\x80\"^^<a:\xc3\xa9>".as_slice()
    );
    let tagged = object_cell(alloc, b"<a:a> <a:p> \"a\" @EN-gb.")?;
    assert_eq!(rt; tagged.as_slice(), b"\"a\"@en-gb".as_slice());
    let typed = object_cell(
        alloc,
        b"<a:a> <a:p> \"a\" ^^ <http://www.w3.org/2001/XMLSchema#string> .",
    )?;
    assert_eq!(rt; typed.as_slice(), b"\"a\"".as_slice());
    Ok(())
}

#[test]
fn a_file_as_people_have_it_is_read(rt: HostRuntime) -> Result<(), Fail> {
    let alloc = rt.alloc();
    let document = document_of(
        alloc,
        b"# people\r\n<http://example.org/alice> <http://xmlns.com/foaf/0.1/name> \"Alice\"@EN .\r\n<http://example.org/alice> <http://xmlns.com/foaf/0.1/knows> _:b0 .\r\n_:b0 <http://example.org/age> \"42\"^^<http://www.w3.org/2001/XMLSchema#integer> .\r\n",
    )?;
    assert_eq!(rt; document.first_label, Some(3));
    let [name, knows, age] = document.statements.items() else {
        panic!(rt; "there are three statements");
    };
    assert!(rt; name.object.equals(&tagged(alloc, "Alice", "en")?));
    assert!(rt; knows.object.equals(&blank(alloc, 0, "b0")?));
    assert!(rt; age.subject.equals(&blank(alloc, 0, "b0")?));
    assert!(rt; age.predicate.equals(&iri(alloc, "http://example.org/age")?));
    Ok(())
}
