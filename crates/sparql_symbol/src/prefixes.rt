//! What the prefixes of a query stand for.

ghost use Rattle.std.specs.Prelude.{◌≡◌, OnOk, List, ℕ};
ghost use Rattle.sparql_symbol.specs.Names.{iri_of, declaration};
ghost use Rattle.sparql_tree.specs.Prologue.{with_declaration};

use std::alloc::Global;
use std::collections::BTreeMap;
use term_core::{Memory, Text};

/// The IRI of each prefix that has one, by the prefix's name in the text.
pub type Prefixes<'a> = BTreeMap<&'a str, Text>;

/// Declares a prefix, over what it stood for before.
pub fn declare<'a>(prefixes: &mut Prefixes<'a>, prefix: &'a str, iri: Text) -> Result<(), Memory>
    ensures { OnOk result ((q : List ℕ) → iri_of prefixes.new q ≡ with_declaration (iri_of prefixes.old) (declaration prefix.now iri) q) }
{
    match prefixes.insert(prefix, iri) {
        Ok(_) => Ok(()),
        Err(_) => Err(Memory),
    }
}
