//! Sets of names, and names as a breach shows them.

ghost use Rattle.std.specs.Prelude.{◌≡◌, ◌++◌, ◌∷◌, [], List, filter, map, not, IfOk, OnOk};
ghost use Rattle.std.specs.BTreeSet.{contains_text};
ghost use Rattle.term_core.specs.Mappings.{Name};
ghost use Rattle.sparql_tree.specs.NameSets.{HasNames};
ghost use Rattle.term_core.specs.Patterns.{label_name};
ghost use Rattle.sparql_tree.specs.Breaches.{first_name, repeated, variable_name};

use std::alloc::Global;
use std::collections::BTreeSet;
use term_core::{Items, Memory, Text};

/// Whether the set has a name.
pub fn has(seen: &BTreeSet<String>, name: &Text) -> bool
    ensures { result ≡ contains_text seen.now name.now }
{
    seen.contains(name.as_str())
}

/// Adds a name.
pub fn add(alloc: Global, name: &Text, seen: &mut BTreeSet<String>) -> Result<(), Memory>
    ensures { OnOk result ((names : List Name) → HasNames seen.old names → HasNames seen.new (names ++ name.now ∷ [])) }
{
    seen.insert(String::from_str(alloc, name.as_str())?)?;
    Ok(())
}

/// The set of names.
pub fn set_of(alloc: Global, names: &[Text]) -> Result<BTreeSet<String>, Memory>
    ensures { IfOk result (λ seen. HasNames seen names.now) }
{
    let mut seen = BTreeSet::new(alloc);
    for name in names {
        add(alloc, name, &mut seen)?;
    }
    Ok(seen)
}

/// The names that stand before among them too.
pub fn repeated_names(alloc: Global, names: &[Text]) -> Result<Items<Text>, Memory>
    ensures { IfOk result (λ found. found ≡ repeated [] names.now) }
{
    let mut found = Items::new(alloc);
    let mut seen = BTreeSet::new(alloc);
    for name in names {
        if has(&seen, name) {
            found.push(name.copy(alloc)?)?;
        }
        add(alloc, name, &mut seen)?;
    }
    Ok(found)
}

/// A variable behind `?`.
pub fn marked(alloc: Global, name: &Text) -> Result<Text, Memory>
    ensures { IfOk result (λ text. text ≡ variable_name name.now) }
{
    let mut whole = String::from_str(alloc, "?")?;
    whole.push_str(name.as_str())?;
    Text::from_str(alloc, whole.as_str())
}

/// A label behind `_:`.
pub fn labelled(alloc: Global, label: &Text) -> Result<Text, Memory>
    ensures { IfOk result (λ text. text ≡ label_name label.now) }
{
    let mut whole = String::from_str(alloc, "_:")?;
    whole.push_str(label.as_str())?;
    Text::from_str(alloc, whole.as_str())
}

/// The first variable that the set has not, behind `?`.
pub fn first_outside(
    alloc: Global,
    names: &[Text],
    allowed: &BTreeSet<String>,
) -> Result<Option<Text>, Memory>
    ensures { IfOk result (λ found. found
        ≡ first_name (map variable_name (filter (λ name. not (contains_text allowed.now name)) names.now))) }
{
    for name in names {
        if !has(allowed, name) {
            return Ok(Some(marked(alloc, name)?));
        }
    }
    Ok(None)
}

/// The first variable that the set has, behind `?`.
pub fn first_inside(
    alloc: Global,
    names: &[Text],
    taken: &BTreeSet<String>,
) -> Result<Option<Text>, Memory>
    ensures { IfOk result (λ found. found
        ≡ first_name (map variable_name (filter (contains_text taken.now) names.now))) }
{
    for name in names {
        if has(taken, name) {
            return Ok(Some(marked(alloc, name)?));
        }
    }
    Ok(None)
}
