//! A borrowed term as the key of a hashed set.
ghost use Rattle.std.specs.Prelude.{◌≡◌};
ghost use Rattle.std.specs.Cmp.{partial_equiv_from_equiv};
ghost use Rattle.change_model.specs.Lexicon.{same_term};
ghost use Rattle.change_model.specs.TermKeys.{term_writes, same_term-equiv, same_term-writes};

use std::hash::{Hash, Hasher};
use std::marker::Model;
use term_core::Term;

/// A term of a statement. Two are equal where the terms are.
#[derive(Drop)]
pub(crate) struct TermKey<'a> {
    term: &'a Term,
}

impl<'a> Model for TermKey<'a> {
    ghost use Rattle.term_core.specs.declared.term.Term.{Term as AnyTerm};

    ghost Value = { AnyTerm };

    ghost view = { λ key. key.term.now };
}

impl<'a> TermKey<'a> {
    pub(crate) fn of(term: &'a Term) -> TermKey<'a>
        ensures { result ≡ term.now }
    {
        TermKey { term }
    }

    pub(crate) fn term(&self) -> &Term
        ensures { result.now ≡ self.now }
    {
        self.term
    }
}

impl PartialEq for TermKey<'_> {
    ghost eq = { same_term };

    ghost laws = { partial_equiv_from_equiv same_term-equiv };

    fn eq(&self, other: &TermKey<'_>) -> bool {
        self.term() == other.term()
    }
}

impl Eq for TermKey<'_> {
    ghost laws = { same_term-equiv };
}

impl Hash for TermKey<'_> {
    ghost hash_input = { term_writes };

    ghost respects_eq = { same_term-writes };

    fn hash<H: Hasher>(&self, state: &mut H) {
        match self.term() {
            Term::Iri(iri) => iri.text().hash(state),
            Term::Literal { form, datatype } => {
                form.text().hash(state);
                datatype.text().hash(state);
            }
            Term::Tagged { form, tag } => {
                form.text().hash(state);
                tag.text().hash(state);
            }
            Term::Blank { at, label } => {
                at.hash(state);
                label.text().hash(state);
            }
        }
    }
}
