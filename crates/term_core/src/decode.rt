//! Reading the spelling of a term.
ghost use Rattle.std.specs.Prelude.{◌≡◌, ◌<◌, ◌+◌, ◌^◌, ◌∷◌, ◌++◌, ℕ, length, IfOk, IfErr, MatchOption, MatchResult};
ghost use Rattle.term_core.specs.declared.term.Term.{Term as AnyTerm};
ghost use Rattle.term_core.specs.Term.{IsTerm, IsIri, IsTag, IsLabel, IsForm};
ghost use Rattle.term_core.specs.Spelling.{spelling, counted, HasForm, IsFirstBadField};
ghost use Rattle.term_core.specs.Decoding.{term_of, IsRead, IsBadTermAt};
ghost use Rattle.term_core.specs.Faults.{IsTermFault, IsNoMemory};

use crate::fault::TermFault;
use crate::kind::{BLANK, IRI, LITERAL, TAGGED};
use crate::parts::{is_iri, is_label, is_tag};
use crate::term::Term;
use base_core::{Text, Want, first_u32, first_u64};
use std::alloc::Global;
use std::str;

impl Term {
    /// The term of this spelling.
    pub fn decode(alloc: Global, bytes: &[u8]) -> Result<Term, TermFault>
        requires { length bytes.now < 2 ^ 32 }
        // What is found keeps the rules, and the bytes are its spelling.
        ensures found { IfOk result (λ term. IsTerm term × (bytes.now ≡ spelling term)) }
        // The bytes spell no other term.
        ensures only { (term : AnyTerm) → IsTerm term → bytes.now ≡ spelling term → MatchResult result (λ found. found ≡ term) IsNoMemory }
        ensures fault { IfErr result (IsTermFault bytes.now) }
        // Bytes with a bad field are refused at it, whether there is memory or not.
        ensures bad { (at : ℕ) → IsFirstBadField bytes.now at → result ≡ Err (TermFault.BadTerm at) }
    {
        let parts = read_parts(bytes)?;
        Ok(parts.term(alloc)?)
    }
}

/// The parts of a term, where they stand in its spelling.
#[derive(Clone, Copy)]
enum Parts<'a> {
    Iri(&'a str),
    Literal { form: &'a str, datatype: &'a str },
    Tagged { form: &'a str, tag: &'a str },
    Blank { at: u64, label: &'a str },
}

impl Parts<'_> {
    fn term(&self, alloc: Global) -> Result<Term, Want>
        ensures { IfOk result (λ made. made ≡ term_of self.now) }
    {
        match self {
            Parts::Iri(iri) => Ok(Term::Iri(Text::of(alloc, iri)?)),
            Parts::Literal { form, datatype } => Ok(Term::Literal {
                form: Text::of(alloc, form)?,
                datatype: Text::of(alloc, datatype)?,
            }),
            Parts::Tagged { form, tag } => Ok(Term::Tagged {
                form: Text::of(alloc, form)?,
                tag: Text::of(alloc, tag)?,
            }),
            Parts::Blank { at, label } => Ok(Term::Blank {
                at: *at,
                label: Text::of(alloc, label)?,
            }),
        }
    }
}

/// The offset of the length or the time, and of the text of an IRI.
const BEHIND_KIND: u32 = 1;

/// The offset of a form.
const BEHIND_LENGTH: u32 = 5;

/// The offset of a label.
const BEHIND_TIME: u32 = 9;

fn read_parts(bytes: &[u8]) -> Result<Parts<'_>, TermFault>
    requires { length bytes.now < 2 ^ 32 }
    ensures { IsRead bytes.now result }
{
    let Some((kind, fields)) = bytes.split_first() else {
        return Err(TermFault::BadTerm { at: 0 });
    };
    match *kind {
        IRI => read_iri(fields),
        LITERAL => read_literal(fields),
        TAGGED => read_tagged(fields),
        BLANK => read_blank(fields),
        _ => Err(TermFault::BadTerm { at: 0 }),
    }
}

fn read_iri(fields: &[u8]) -> Result<Parts<'_>, TermFault>
    ensures { IsRead (1 ∷ fields.now) result }
{
    let Some(iri) = iri_in(fields) else {
        return Err(TermFault::BadTerm { at: BEHIND_KIND });
    };
    Ok(Parts::Iri(iri))
}

fn read_literal(fields: &[u8]) -> Result<Parts<'_>, TermFault>
    requires { length fields.now + 1 < 2 ^ 32 }
    ensures { IsRead (2 ∷ fields.now) result }
{
    let Form { form, rest, end } = read_form(fields)?;
    let Some(datatype) = iri_in(rest) else {
        return Err(TermFault::BadTerm { at: end });
    };
    Ok(Parts::Literal { form, datatype })
}

fn read_tagged(fields: &[u8]) -> Result<Parts<'_>, TermFault>
    requires { length fields.now + 1 < 2 ^ 32 }
    ensures { IsRead (3 ∷ fields.now) result }
{
    let Form { form, rest, end } = read_form(fields)?;
    let Some(tag) = tag_in(rest) else {
        return Err(TermFault::BadTerm { at: end });
    };
    Ok(Parts::Tagged { form, tag })
}

fn read_blank(fields: &[u8]) -> Result<Parts<'_>, TermFault>
    ensures { IsRead (4 ∷ fields.now) result }
{
    let Some((at, rest)) = first_u64(fields) else {
        return Err(TermFault::BadTerm { at: BEHIND_KIND });
    };
    let Some(label) = label_in(rest) else {
        return Err(TermFault::BadTerm { at: BEHIND_TIME });
    };
    Ok(Parts::Blank { at, label })
}

/// A form and the bytes behind it.
#[derive(Clone, Copy)]
struct Form<'a> {
    form: &'a str,
    rest: &'a [u8],
    /// The offset of the rest in the spelling.
    end: u32,
}

/// The form in the fields behind a tag byte.
fn read_form(fields: &[u8]) -> Result<Form<'_>, TermFault>
    requires { length fields.now + 1 < 2 ^ 32 }
    ensures found { IfOk result (λ found. IsForm found.form.now × (fields.now ≡ counted found.form.now ++ found.rest.now)) }
    ensures end { IfOk result (λ found. found.end ≡ 5 + length found.form.now) }
    ensures fault { (kind : ℕ) → HasForm kind → IfErr result (IsBadTermAt (kind ∷ fields.now)) }
{
    let Some((length, texts)) = first_u32(fields) else {
        return Err(TermFault::BadTerm { at: BEHIND_KIND });
    };
    let Some((form, rest)) = texts.split_at_checked(length as usize) else {
        return Err(TermFault::BadTerm { at: BEHIND_LENGTH });
    };
    let Ok(form) = str::from_utf8(form) else {
        return Err(TermFault::BadTerm { at: BEHIND_LENGTH });
    };
    let end = BEHIND_LENGTH + length;
    Ok(Form { form, rest, end })
}

fn iri_in(bytes: &[u8]) -> Option<&str>
    ensures { MatchOption result (¬ IsIri bytes.now) (λ iri. (iri.now ≡ bytes.now) × IsIri bytes.now) }
{
    let Ok(text) = str::from_utf8(bytes) else {
        return None;
    };
    if is_iri(text) { Some(text) } else { None }
}

fn tag_in(bytes: &[u8]) -> Option<&str>
    ensures { MatchOption result (¬ IsTag bytes.now) (λ tag. (tag.now ≡ bytes.now) × IsTag bytes.now) }
{
    let Ok(text) = str::from_utf8(bytes) else {
        return None;
    };
    if is_tag(text) { Some(text) } else { None }
}

fn label_in(bytes: &[u8]) -> Option<&str>
    ensures { MatchOption result (¬ IsLabel bytes.now) (λ label. (label.now ≡ bytes.now) × IsLabel bytes.now) }
{
    let Ok(text) = str::from_utf8(bytes) else {
        return None;
    };
    if is_label(text) { Some(text) } else { None }
}
