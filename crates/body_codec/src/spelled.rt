//! A spelling where it stands in a body, as a key of a set, and how long a spelling is.
ghost use Rattle.std.specs.Prelude.{◌≡◌, ◌<◌, ◌+◌, ◌-◌, ◌^◌, length, nat_eq, refl};
ghost use Rattle.std.specs.Ordering.{nat_cmp, as_partial_cmp};
ghost use Rattle.std.specs.Cmp.{partial_equiv_from_equiv};
ghost use Rattle.std.specs.Cmp.Lexicographic.{pointwise, slice_cmp, nat_list_eq_equiv, nat_list_cmp_total, texts_po, texts_ties};
ghost use Rattle.term_core.specs.Spelling.{spelling};

use base_core::Text;
use std::cmp::Ordering;
use std::marker::Model;
use term_core::Term;

/// The spelling of a term, which a body lends. Spellings are ordered by their bytes.
#[derive(Debug, Drop)]
pub(crate) struct Spelled<'a> {
    bytes: &'a [u8],
}

impl<'a> Model for Spelled<'a> {
    ghost use Rattle.std.specs.Prelude.{List, ℕ};

    ghost Value = { List ℕ };

    ghost view = { λ spelled. spelled.bytes.now };
}

impl<'a> Spelled<'a> {
    pub(crate) fn of(bytes: &'a [u8]) -> Spelled<'a>
        ensures { result ≡ bytes.now }
    {
        Spelled { bytes }
    }

    fn bytes(&self) -> &[u8]
        ensures { result.now ≡ self.now }
    {
        self.bytes
    }
}

impl PartialEq for Spelled<'_> {
    ghost eq = { pointwise nat_eq };

    ghost laws = { partial_equiv_from_equiv nat_list_eq_equiv };

    fn eq(&self, other: &Spelled<'_>) -> bool {
        self.bytes() == other.bytes()
    }
}

impl Eq for Spelled<'_> {
    ghost laws = { nat_list_eq_equiv };
}

impl PartialOrd for Spelled<'_> {
    ghost partial_cmp = { as_partial_cmp (slice_cmp nat_cmp) };

    ghost laws = { texts_po };

    fn partial_cmp(&self, other: &Spelled<'_>) -> Option<Ordering> {
        Some(self.cmp(other))
    }
}

impl Ord for Spelled<'_> {
    ghost cmp = { slice_cmp nat_cmp };

    ghost total = { nat_list_cmp_total };

    ghost matches_partial_cmp = { λ _ _. refl };

    ghost matches_eq = { texts_ties };

    fn cmp(&self, other: &Spelled<'_>) -> Ordering {
        self.bytes().cmp(other.bytes())
    }
}

/// How many bytes the spelling of a term has, where that fits.
pub(crate) fn spelled_size(term: &Term) -> u64
    ensures { result < 2 ^ 64 - 1 → result ≡ length (spelling term.now) }
{
    match term {
        Term::Iri(iri) => with_text(1, iri),
        Term::Literal { form, datatype } => with_text(with_text(5, form), datatype),
        Term::Tagged { form, tag } => with_text(with_text(5, form), tag),
        Term::Blank { label, .. } => with_text(9, label),
    }
}

fn with_text(size: u64, text: &Text) -> u64
    ensures { result < 2 ^ 64 - 1 → result ≡ size + length text.now }
{
    size.saturating_add(text.text().len() as u64)
}
