//! The spellings of terms as keys.
ghost use Rattle.std.specs.Prelude.{◌≡◌, ◌↔◌, ◌<◌, ◌^◌, length, IfOk, IsTrue};
ghost use Rattle.term_core.specs.Spelling.{spelling, HasShortForm};

use base_core::Want;
use fed_bytes::Key;
use std::alloc::Global;
use term_core::Term;

/// The spelling of the term. There is no room for one whose form has 2^32 bytes or more.
pub(crate) fn spelled(alloc: Global, term: &Term) -> Result<Key, Want>
    ensures { IfOk result (λ key. key ≡ spelling term.now) }
{
    if !has_short_form(term) {
        return Err(Want::NoMemory);
    }
    let bytes = term.encode(alloc)?;
    Ok(Key::from_bytes(bytes))
}

fn has_short_form(term: &Term) -> bool
    ensures { IsTrue result ↔ HasShortForm term.now }
{
    match term {
        Term::Literal { form, .. } | Term::Tagged { form, .. } => is_short(form.text()),
        Term::Iri(_) | Term::Blank { .. } => true,
    }
}

fn is_short(form: &str) -> bool
    ensures { IsTrue result ↔ (length form.now < 2 ^ 32) }
{
    form.len() <= u32::MAX as usize
}
