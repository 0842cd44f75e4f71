//! The variables that are in scope, each by its last place among them.

ghost use Rattle.std.specs.Prelude.{◌≡◌, ◌≤◌, ◌++◌, ◌∷◌, [], OnOk, drop, length};
ghost use Rattle.std.specs.BTreeMap.{get_by_text};
ghost use Rattle.term_core.specs.Mappings.{has_name};
ghost use Rattle.sparql_scope.specs.Places.{AreLast};

use std::alloc::Global;
use std::collections::BTreeMap;
use term_core::{Items, Memory, Text};

/// The variables that are in scope.
#[derive(Drop)]
pub struct Places {
    /// All of them, in text order, each as often as it stands there.
    pub names: Items<Text>,
    /// The last place of each among these, counted from 0.
    pub last: BTreeMap<String, usize>,
}

/// No variables.
pub fn no_places(alloc: Global) -> Places
    ensures names { result.names ≡ [] }
    ensures last { AreLast result.last result.names }
{
    Places {
        names: Items::new(alloc),
        last: BTreeMap::new(alloc),
    }
}

/// Adds a variable behind the others.
pub fn add_place(alloc: Global, name: &Text, places: &mut Places) -> Result<(), Memory>
    requires last { AreLast places.old.last places.old.names }
    ensures names { OnOk result (places.new.names ≡ places.old.names ++ name.now ∷ []) }
    ensures last { OnOk result (AreLast places.new.last places.new.names) }
{
    let key = String::from_str(alloc, name.as_str())?;
    places.last.insert(key, places.names.len())?;
    places.names.push(name.copy(alloc)?)
}

/// Adds variables behind the others.
pub fn add_places(alloc: Global, names: &[Text], places: &mut Places) -> Result<(), Memory>
    requires last { AreLast places.old.last places.old.names }
    ensures names { OnOk result (places.new.names ≡ places.old.names ++ names.now) }
    ensures last { OnOk result (AreLast places.new.last places.new.names) }
{
    for name in names {
        add_place(alloc, name, places)?;
    }
    Ok(())
}

/// Whether a variable is among those from a place on.
pub fn is_from(places: &Places, start: usize, name: &Text) -> bool
    requires last { AreLast places.now.last places.now.names }
    requires start { start ≤ length places.now.names }
    ensures { result ≡ has_name (drop start places.now.names) name.now }
{
    match places.last.get(name.as_str()) {
        Some(at) => start <= *at,
        None => false,
    }
}
