//! Triple patterns, and triples of numbers that stand for terms.

ghost use Rattle.std.specs.Prelude.{◌≡◌, IfOk};

use crate::{Memory, Term, Text};
use std::alloc::Global;

/// A place of a triple pattern (SPARQL 1.1, section 18.1.5).
#[derive(Debug, Drop)]
pub enum Place {
    /// A variable, by its name without `?` or `$`.
    Var(Text),
    /// A blank node of the query (section 4.1.4), by its label without `_:`. It matches as a variable does.
    Blank(Text),
    /// A term that matches itself alone.
    Term(Term),
}

/// A triple pattern (SPARQL 1.1, section 18.1.5).
#[derive(Debug, Drop)]
pub struct Pattern {
    pub subject: Place,
    pub predicate: Place,
    pub object: Place,
}

impl Place {
    /// An equal place with room of its own.
    pub fn copy(&self, alloc: Global) -> Result<Place, Memory>
        ensures { IfOk result (λ p. p ≡ self.now) }
    {
        match self {
            Place::Var(name) => Ok(Place::Var(name.copy(alloc)?)),
            Place::Blank(label) => Ok(Place::Blank(label.copy(alloc)?)),
            Place::Term(term) => Ok(Place::Term(term.copy(alloc)?)),
        }
    }
}

impl Pattern {
    /// An equal pattern with room of its own.
    pub fn copy(&self, alloc: Global) -> Result<Pattern, Memory>
        ensures { IfOk result (λ p. p ≡ self.now) }
    {
        Ok(Pattern {
            subject: self.subject.copy(alloc)?,
            predicate: self.predicate.copy(alloc)?,
            object: self.object.copy(alloc)?,
        })
    }
}

/// A triple whose terms are given by number: subject, predicate, object. Its order is by `s`, then
/// `p`, then `o`.
#[derive(Clone, Copy, Debug, PartialEq, Eq, PartialOrd, Ord)]
pub struct IdTriple {
    pub s: u32,
    pub p: u32,
    pub o: u32,
}
