//! Pairs of rows: whether they are compatible, share a name or are equal, and their merge.

ghost use Rattle.std.specs.Prelude.{◌≡◌, IfOk, OnOk, is_some, map};
ghost use Rattle.std.specs.FinMap as finmap;
ghost use Rattle.std.specs.List.{list_all, list_any};
ghost use Rattle.term_core.specs.Mappings.{value, do_agree, are_compatible as compatible, with_entries, merge, joined as joined_row};
ghost use Rattle.sparql_value.specs.Solutions.{share_name};
ghost use Rattle.row_bag.specs.Rows.{same_entry, same_entries, same_row};

use std::alloc::Global;
use term_core::{Memory, Row, RowBuilder, Term, Text, compare};

fn do_entries_agree(entries: &[(Text, Term)], row: &Row) -> bool
    ensures { result ≡ list_all (λ e. do_agree (Some e.1) (value row.now e.0)) entries.now }
{
    for entry in entries {
        match row.get(entry.0.bytes()) {
            Some(other) => {
                if !compare(&entry.1, other).is_eq() {
                    return false;
                }
            }
            None => {}
        }
    }
    true
}

/// Whether the rows agree on the names that both bind.
pub fn are_compatible(a: &Row, b: &Row) -> bool
    ensures { result ≡ compatible a.now b.now }
{
    do_entries_agree(a.entries(), b)
}

fn do_entries_share(entries: &[(Text, Term)], row: &Row) -> bool
    ensures { result ≡ list_any (λ name. is_some (value row.now name)) (map (λ e. e.0) entries.now) }
{
    for entry in entries {
        if row.get(entry.0.bytes()).is_some() {
            return true;
        }
    }
    false
}

/// Whether some name is bound in both rows.
pub fn do_share_name(a: &Row, b: &Row) -> bool
    ensures { result ≡ share_name a.now b.now }
{
    do_entries_share(a.entries(), b)
}

fn is_same_entry(a: &(Text, Term), b: &(Text, Term)) -> bool
    ensures { result ≡ same_entry a.now b.now }
{
    a.0.bytes().cmp(b.0.bytes()).is_eq() && compare(&a.1, &b.1).is_eq()
}

fn are_same_entries(a: &[(Text, Term)], b: &[(Text, Term)]) -> bool
    ensures { result ≡ same_entries a.now b.now }
{
    if a.len() != b.len() {
        return false;
    }
    for k in 0..a.len() {
        if !is_same_entry(&a[k], &b[k]) {
            return false;
        }
    }
    true
}

/// Whether the rows are equal.
pub fn are_same(a: &Row, b: &Row) -> bool
    ensures { result ≡ same_row a.now b.now }
{
    are_same_entries(a.entries(), b.entries())
}

fn set_entry(alloc: Global, builder: &mut RowBuilder, entry: &(Text, Term)) -> Result<(), Memory>
    ensures { OnOk result (builder.new ≡ finmap.insert builder.old entry.now.0 entry.now.1) }
{
    let name = entry.0.copy(alloc)?;
    let term = entry.1.copy(alloc)?;
    builder.set(name, term)
}

// Puts the entries of a row over what is there.
fn put_over(alloc: Global, builder: &mut RowBuilder, entries: &[(Text, Term)]) -> Result<(), Memory>
    ensures { OnOk result (builder.new ≡ with_entries entries.now builder.old) }
{
    for k in (0..entries.len()).rev() {
        set_entry(alloc, builder, &entries[k])?;
    }
    Ok(())
}

fn merged(alloc: Global, a: &Row, b: &Row) -> Result<Row, Memory>
    ensures { IfOk result (λ row. row ≡ merge a.now b.now) }
{
    let mut builder = RowBuilder::new(alloc);
    put_over(alloc, &mut builder, b.entries())?;
    put_over(alloc, &mut builder, a.entries())?;
    builder.build(alloc)
}

/// The merge, where the rows are compatible.
pub fn joined(alloc: Global, a: &Row, b: &Row) -> Result<Option<Row>, Memory>
    ensures { IfOk result (λ r. r ≡ joined_row a.now b.now) }
{
    if are_compatible(a, b) {
        Ok(Some(merged(alloc, a, b)?))
    } else {
        Ok(None)
    }
}
