//! Copies of rows: of two lists, and of the part of a row that is selected.

ghost use Rattle.std.specs.Prelude.{◌≡◌, ◌++◌, ◌∷◌, [], IfOk, OnOk, fold};
ghost use Rattle.std.specs.FinMap as finmap;
ghost use Rattle.term_core.specs.Mappings.{value, restricted};
ghost use Rattle.sparql_value.specs.Solutions.{with_value};

use std::alloc::Global;
use term_core::{Items, Memory, Row, RowBuilder, Text};

/// Adds a copy of a row.
pub fn push_copy(alloc: Global, out: &mut Items<Row>, row: &Row) -> Result<(), Memory>
    ensures { OnOk result (out.new ≡ out.old ++ row.now ∷ []) }
{
    let row = row.copy(alloc)?;
    out.push(row)
}

fn push_copies(alloc: Global, out: &mut Items<Row>, rows: &[Row]) -> Result<(), Memory>
    ensures { OnOk result (out.new ≡ out.old ++ rows.now) }
{
    for row in rows {
        push_copy(alloc, out, row)?;
    }
    Ok(())
}

/// The rows on the left and then those on the right, copied (SPARQL 1.1, section 18.5, Union).
pub fn union(alloc: Global, left: &[Row], right: &[Row]) -> Result<Items<Row>, Memory>
    ensures { IfOk result (λ rows. rows ≡ left.now ++ right.now) }
{
    let mut out = Items::new(alloc);
    push_copies(alloc, &mut out, left)?;
    push_copies(alloc, &mut out, right)?;
    Ok(out)
}

// Binds a name as the row does, if the row does.
fn set_value(alloc: Global, builder: &mut RowBuilder, row: &Row, name: &Text) -> Result<(), Memory>
    ensures { OnOk result (builder.new ≡ with_value name.now (value row.now name.now) builder.old) }
{
    match row.get(name.bytes()) {
        Some(term) => {
            let name = name.copy(alloc)?;
            let term = term.copy(alloc)?;
            builder.set(name, term)
        }
        None => Ok(()),
    }
}

fn set_values(
    alloc: Global,
    builder: &mut RowBuilder,
    row: &Row,
    names: &[Text],
) -> Result<(), Memory>
    ensures { OnOk result (builder.new ≡ fold (λ done name. with_value name (value row.now name) done) builder.old names.now) }
{
    for name in names {
        set_value(alloc, builder, row, name)?;
    }
    Ok(())
}

/// The row restricted to the variables, copied (SPARQL 1.1, section 18.5, Project). A variable that is
/// unbound stays so; one that stands twice counts once.
pub fn project(alloc: Global, row: &Row, variables: &[Text]) -> Result<Row, Memory>
    ensures { IfOk result (λ part. part ≡ restricted variables.now row.now) }
{
    let mut builder = RowBuilder::new(alloc);
    set_values(alloc, &mut builder, row, variables)?;
    builder.build(alloc)
}
