//! A term of RDF 1.1, section 3.
ghost use Rattle.std.specs.Prelude.{◌≡◌, ◌↔◌, IfOk, IsTrue};

use base_core::{Text, Want};
use std::alloc::Global;

/// An IRI, a literal, a literal with a language tag, or a blank node.
///
/// Two terms are equal where their kind and all their parts are (RDF 1.1 Concepts, sections 3.2 to 3.4);
/// no values are compared. The rules on the characters of the parts are `IsTerm`.
#[derive(Debug, PartialEq, Eq, PartialOrd, Ord, Drop)]
pub enum Term {
    Iri(Text),
    Literal { form: Text, datatype: Text },
    /// The tag is in ASCII lower case, without `@`.
    Tagged { form: Text, tag: Text },
    /// The label `label` of the change committed at the time `at`, from 1; 0 where it isn't committed yet.
    Blank { at: u64, label: Text },
}

impl Term {
    /// A copy of this term.
    pub fn copy(&self, alloc: Global) -> Result<Term, Want>
        ensures { IfOk result (λ made. made ≡ self.now) }
    {
        match self {
            Term::Iri(iri) => Ok(Term::Iri(iri.copy(alloc)?)),
            Term::Literal { form, datatype } => Ok(Term::Literal {
                form: form.copy(alloc)?,
                datatype: datatype.copy(alloc)?,
            }),
            Term::Tagged { form, tag } => Ok(Term::Tagged {
                form: form.copy(alloc)?,
                tag: tag.copy(alloc)?,
            }),
            Term::Blank { at, label } => Ok(Term::Blank {
                at: *at,
                label: label.copy(alloc)?,
            }),
        }
    }

    /// Term equality (RDF 1.1 Concepts, sections 3.2 to 3.4).
    pub fn equals(&self, other: &Term) -> bool
        ensures { IsTrue result ↔ (self.now ≡ other.now) }
    {
        self == other
    }
}
