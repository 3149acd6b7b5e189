//! Writing terms as cells.
ghost use Rattle.std.specs.Prelude.{◌≡◌, ◌++◌, OnOk, OnErr};
ghost use Rattle.std.specs.List.{flat_map};
ghost use Rattle.term_core.specs.declared.term.Term.TheVariants.{Literal, Tagged, Blank};
ghost use Rattle.nt_text.specs.Cell.{cell, quoted, bracketed, escaped_byte, datatype_mark, is_string};

use base_core::Want;
use std::alloc::Global;
use term_core::Term;

const XSD_STRING: &str = "http://www.w3.org/2001/XMLSchema#string";

/// Appends the term's cell: an N-Triples term, where a blank node is printed `_:cK.a` for the label `a` of the
/// change at the time K, also where the label holds a colon.
pub fn write_term(alloc: Global, term: &Term, out: &mut Vec<u8>) -> Result<(), Want>
    ensures ok { OnOk result (out.new.items ≡ out.old.items ++ cell term.now) }
    ensures err { OnErr result (out.new.items ≡ out.old.items) }
{
    let mut made = Vec::new(alloc);
    put_term(alloc, term, &mut made)?;
    out.extend_from_slice(&made)?;
    Ok(())
}

/// The same in place. After a want of memory a part of the cell may stand there.
pub fn put_term(alloc: Global, term: &Term, out: &mut Vec<u8>) -> Result<(), Want>
    ensures { OnOk result (out.new.items ≡ out.old.items ++ cell term.now) }
{
    match term {
        Term::Iri(iri) => put_bracketed(iri.text(), out),
        Term::Literal { form, datatype } => put_literal(form.text(), datatype.text(), out),
        Term::Tagged { form, tag } => put_tagged(form.text(), tag.text(), out),
        Term::Blank { at, label } => put_blank(alloc, *at, label.text(), out),
    }
}

/// STRING_LITERAL_QUOTE, and `^^` and an IRIREF where the literal isn't plain
fn put_literal(form: &str, datatype: &str, out: &mut Vec<u8>) -> Result<(), Want>
    ensures { OnOk result (out.new.items ≡ out.old.items ++ cell (Literal form.now datatype.now)) }
{
    put_quoted(form, out)?;
    put_datatype(datatype, out)
}

/// STRING_LITERAL_QUOTE LANGTAG
fn put_tagged(form: &str, tag: &str, out: &mut Vec<u8>) -> Result<(), Want>
    ensures { OnOk result (out.new.items ≡ out.old.items ++ cell (Tagged form.now tag.now)) }
{
    put_quoted(form, out)?;
    out.push(b'@')?;
    out.extend_from_slice(tag.as_bytes())?;
    Ok(())
}

/// IRIREF
fn put_bracketed(iri: &str, out: &mut Vec<u8>) -> Result<(), Want>
    ensures { OnOk result (out.new.items ≡ out.old.items ++ bracketed iri.now) }
{
    out.push(b'<')?;
    out.extend_from_slice(iri.as_bytes())?;
    out.push(b'>')?;
    Ok(())
}

/// STRING_LITERAL_QUOTE
fn put_quoted(form: &str, out: &mut Vec<u8>) -> Result<(), Want>
    ensures { OnOk result (out.new.items ≡ out.old.items ++ quoted form.now) }
{
    out.push(b'"')?;
    put_escaped(form.as_bytes(), out)?;
    out.push(b'"')?;
    Ok(())
}

fn put_escaped(form: &[u8], out: &mut Vec<u8>) -> Result<(), Want>
    ensures { OnOk result (out.new.items ≡ out.old.items ++ flat_map escaped_byte form.now) }
{
    for byte in form {
        put_escaped_byte(*byte, out)?;
    }
    Ok(())
}

/// ECHAR, where the byte has to be escaped or is the tab.
fn put_escaped_byte(byte: u8, out: &mut Vec<u8>) -> Result<(), Want>
    ensures { OnOk result (out.new.items ≡ out.old.items ++ escaped_byte byte) }
{
    match byte {
        b'"' => out.extend_from_slice(b"\\\"")?,
        b'\\' => out.extend_from_slice(b"\\\\")?,
        b'\n' => out.extend_from_slice(b"\\n")?,
        b'\r' => out.extend_from_slice(b"\\r")?,
        b'\t' => out.extend_from_slice(b"\\t")?,
        _ => out.push(byte)?,
    }
    Ok(())
}

/// The datatype behind `^^`; nothing where the literal is plain.
fn put_datatype(datatype: &str, out: &mut Vec<u8>) -> Result<(), Want>
    ensures { OnOk result (out.new.items ≡ out.old.items ++ datatype_mark datatype.now) }
{
    if is_xsd_string(datatype) {
        return Ok(());
    }
    out.extend_from_slice(b"^^")?;
    put_bracketed(datatype, out)
}

#[tactic(auto, unfolding(crate::specs::Cell::is_string))]
fn is_xsd_string(datatype: &str) -> bool
    ensures { result ≡ is_string datatype.now }
{
    datatype == XSD_STRING
}

/// BLANK_NODE_LABEL, with the time of its change
fn put_blank(alloc: Global, at: u64, label: &str, out: &mut Vec<u8>) -> Result<(), Want>
    ensures { OnOk result (out.new.items ≡ out.old.items ++ cell (Blank at label.now)) }
{
    let front = format!(in alloc; "_:c{at}.")?;
    out.extend_from_slice(front.as_bytes())?;
    out.extend_from_slice(label.as_bytes())?;
    Ok(())
}
