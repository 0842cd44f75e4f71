//! What can be copied where there is memory, so that lists of it can.

ghost use Rattle.std.specs.Prelude.{◌≡◌, IfOk};

use crate::{Items, Memory, Pattern, Place, Row, Term, Text};
use std::alloc::Global;

/// Values that can be copied where there is memory.
pub trait TryCopy: Drop {
    /// An equal value with room of its own.
    fn try_copy(&self, alloc: Global) -> Result<Self, Memory>
        ensures { IfOk result (λ copy. copy ≡ self.now) };
}

impl TryCopy for Text {
    fn try_copy(&self, alloc: Global) -> Result<Text, Memory> {
        self.copy(alloc)
    }
}

impl TryCopy for Term {
    fn try_copy(&self, alloc: Global) -> Result<Term, Memory> {
        self.copy(alloc)
    }
}

impl TryCopy for Place {
    fn try_copy(&self, alloc: Global) -> Result<Place, Memory> {
        self.copy(alloc)
    }
}

impl TryCopy for Pattern {
    fn try_copy(&self, alloc: Global) -> Result<Pattern, Memory> {
        self.copy(alloc)
    }
}

impl TryCopy for Row {
    fn try_copy(&self, alloc: Global) -> Result<Row, Memory> {
        self.copy(alloc)
    }
}

impl<T: TryCopy> TryCopy for Items<T> {
    fn try_copy(&self, alloc: Global) -> Result<Items<T>, Memory> {
        self.copy(alloc)
    }
}
