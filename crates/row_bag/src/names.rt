//! The names that rows bind.

ghost use Rattle.std.specs.Prelude.{◌≡◌, true, IfOk, OnOk, is_some, map, ◌||◌};
ghost use Rattle.std.specs.List.{list_all};
ghost use Rattle.term_core.specs.Mappings.{Name, value, same_name, has_name};
ghost use Rattle.row_bag.specs.Rows.{are_bound, BindsAll};

use std::alloc::Global;
use term_core::{Memory, Row, Term, Text};

fn is_there(row: &Row, name: &[u8]) -> bool
    ensures { result ≡ is_some (value row.now name.now) }
{
    row.get(name).is_some()
}

fn is_bound(name: &[u8], rows: &[Row]) -> bool
    ensures { result ≡ list_all (λ row. is_some (value row name.now)) rows.now }
{
    for row in rows {
        if !is_there(row, name) {
            return false;
        }
    }
    true
}

/// The names that each row of both lists binds.
pub fn sure_names(alloc: Global, left: &[Row], right: &[Row]) -> Result<Vec<Text>, Memory>
    ensures left { IfOk result (λ names. are_bound names.items left.now ≡ true) }
    ensures right { IfOk result (λ names. are_bound names.items right.now ≡ true) }
{
    let mut names = Vec::new(alloc);
    if let Some(first) = left.first() {
        for entry in first.entries() {
            let name = entry.0.bytes();
            if is_bound(name, left) && is_bound(name, right) {
                names.push(entry.0.copy(alloc)?)?;
            }
        }
    }
    Ok(names)
}

// Binds the name of an entry in a row where it is unbound.
fn bind_entry(alloc: Global, bound: &mut Row, name: &Text, term: &Term) -> Result<(), Memory>
    ensures { OnOk result ((q : Name) → is_some (value bound.new q) ≡ is_some (value bound.old q) || same_name q name.now) }
{
    if is_there(bound, name.bytes()) {
        return Ok(());
    }
    let name = name.copy(alloc)?;
    let term = term.copy(alloc)?;
    bound.set(name, term)?;
    Ok(())
}

fn bind_entries(alloc: Global, bound: &mut Row, entries: &[(Text, Term)]) -> Result<(), Memory>
    ensures { OnOk result ((q : Name) → is_some (value bound.new q)
        ≡ is_some (value bound.old q) || has_name (map (λ e. e.0) entries.now) q) }
{
    for entry in entries {
        bind_entry(alloc, bound, &entry.0, &entry.1)?;
    }
    Ok(())
}

/// A row that binds each name that some of the rows bind, and no other.
pub fn all_names(alloc: Global, rows: &[Row]) -> Result<Row, Memory>
    ensures { IfOk result (λ bound. BindsAll bound rows.now) }
{
    let mut bound = Row::empty(alloc);
    for row in rows {
        bind_entries(alloc, &mut bound, row.entries())?;
    }
    Ok(bound)
}
