//! A triple of RDF 1.1, section 3.1.
ghost use Rattle.std.specs.Prelude.{◌≡◌, ◌↔◌, IfOk, IsTrue};

use crate::term::Term;
use base_core::Want;
use std::alloc::Global;

/// An RDF triple (RDF 1.1 Concepts, section 3.1). Which terms may stand where is `IsStatement`.
#[derive(Debug, PartialEq, Eq, PartialOrd, Ord, Drop)]
pub struct Statement {
    pub subject: Term,
    pub predicate: Term,
    pub object: Term,
}

impl Statement {
    /// A copy of this statement.
    pub fn copy(&self, alloc: Global) -> Result<Statement, Want>
        ensures { IfOk result (λ made. made ≡ self.now) }
    {
        Ok(Statement {
            subject: self.subject.copy(alloc)?,
            predicate: self.predicate.copy(alloc)?,
            object: self.object.copy(alloc)?,
        })
    }

    /// Whether two statements are equal, which they are where all three terms are.
    pub fn equals(&self, other: &Statement) -> bool
        ensures { IsTrue result ↔ (self.now ≡ other.now) }
    {
        self.subject.equals(&other.subject)
            && self.predicate.equals(&other.predicate)
            && self.object.equals(&other.object)
    }
}
