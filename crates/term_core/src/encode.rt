//! Spelling a term in bytes.
ghost use Rattle.std.specs.Prelude.{◌≡◌, ◌<◌, ◌^◌, ◌∷◌, ◌++◌, length, IfOk};
ghost use Rattle.std.specs.Int.{w64, to_be_bytes};
ghost use Rattle.term_core.specs.Spelling.{spelling, counted, HasShortForm};

use crate::kind::{BLANK, IRI, LITERAL, TAGGED};
use crate::term::Term;
use base_core::{Want, put_u32, put_u64};
use std::alloc::Global;

impl Term {
    /// The spelling of this term.
    pub fn encode(&self, alloc: Global) -> Result<Vec<u8>, Want>
        requires { HasShortForm self.now }
        ensures { IfOk result (λ bytes. bytes.items ≡ spelling self.now) }
    {
        match self {
            Term::Iri(iri) => encode_iri(alloc, iri.text()),
            Term::Literal { form, datatype } => {
                encode_form(alloc, LITERAL, form.text(), datatype.text())
            }
            Term::Tagged { form, tag } => encode_form(alloc, TAGGED, form.text(), tag.text()),
            Term::Blank { at, label } => encode_blank(alloc, *at, label.text()),
        }
    }
}

fn encode_iri(alloc: Global, iri: &str) -> Result<Vec<u8>, Want>
    ensures { IfOk result (λ bytes. bytes.items ≡ 1 ∷ iri.now) }
{
    let mut bytes = Vec::with_capacity(alloc, 1 + iri.len())?;
    bytes.push(IRI)?;
    bytes.extend_from_slice(iri.as_bytes())?;
    Ok(bytes)
}

/// A kind that has a form, and what follows the form.
fn encode_form(alloc: Global, kind: u8, form: &str, rest: &str) -> Result<Vec<u8>, Want>
    requires { length form.now < 2 ^ 32 }
    ensures { IfOk result (λ bytes. bytes.items ≡ kind ∷ (counted form.now ++ rest.now)) }
{
    let length = form.len() as u32;
    let mut bytes = Vec::with_capacity(alloc, 5 + form.len() + rest.len())?;
    bytes.push(kind)?;
    put_u32(length, &mut bytes)?;
    bytes.extend_from_slice(form.as_bytes())?;
    bytes.extend_from_slice(rest.as_bytes())?;
    Ok(bytes)
}

fn encode_blank(alloc: Global, at: u64, label: &str) -> Result<Vec<u8>, Want>
    ensures { IfOk result (λ bytes. bytes.items ≡ 4 ∷ (to_be_bytes w64 at ++ label.now)) }
{
    let mut bytes = Vec::with_capacity(alloc, 9 + label.len())?;
    bytes.push(BLANK)?;
    put_u64(at, &mut bytes)?;
    bytes.extend_from_slice(label.as_bytes())?;
    Ok(bytes)
}
