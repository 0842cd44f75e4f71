//! Rows of many names, built in any order.

ghost use Rattle.std.specs.Prelude.{◌≡◌, OnOk, OnErr, IfOk, map};
ghost use Rattle.std.specs.FinMap as finmap;
ghost use Rattle.term_core.specs.Rows.{AreSorted, named_term};

use crate::{Memory, Row, Term, Text};
use std::alloc::Global;
use std::collections::BTreeMap;
use std::marker::Model;

/// A row that is being built: some names, each with a term. Contracts see the map that the row will
/// be. It costs a look-up in a tree to set a name, where `Row::set` moves all names behind it.
#[derive(Drop)]
pub struct RowBuilder {
    terms: BTreeMap<String, Term>,
}

impl Model for RowBuilder {
    ghost use Rattle.std.specs.FinMap as finmap;
    ghost use Rattle.term_core.specs.declared.term.Term.{Term};
    ghost use Rattle.term_core.specs.Order.{bytes_cmp};
    ghost use Rattle.term_core.specs.Rows.{row_of};
    ghost use Rattle.std.specs.Coded.{coded_list, coded_ℕ};
    ghost use Rattle.term_core.specs.contracts.term.Term as term;

    ghost Value = { finmap.FinMap bytes_cmp Term };

    ghost coded = { finmap.code (coded_list coded_ℕ) term.the_row.coded };

    ghost view = { λ b. row_of b.terms };
}

impl RowBuilder {
    /// No names yet. It takes memory only in `set` and `build`.
    pub fn new(alloc: Global) -> RowBuilder
        ensures { result ≡ finmap.empty }
    {
        RowBuilder {
            terms: BTreeMap::new(alloc),
        }
    }

    /// Binds `name` to `term`, in place of the term that it had. Where memory is wanting nothing is
    /// bound, and name and term are let go.
    pub fn set(&mut self, name: Text, term: Term) -> Result<(), Memory>
        ensures ok { OnOk result (self.new ≡ finmap.insert self.old name term) }
        ensures err { OnErr result (self.new ≡ self.old) }
    {
        self.terms.insert(name.into_string(), term)?;
        Ok(())
    }

    /// The row.
    pub fn build(self, alloc: Global) -> Result<Row, Memory>
        ensures { IfOk result (λ row. row ≡ self) }
    {
        let RowBuilder { terms } = self;
        Ok(Row::of_sorted(in_order(alloc, terms)?))
    }
}

/// The entries of a tree, in the byte order of the names.
fn in_order(alloc: Global, terms: BTreeMap<String, Term>) -> Result<Vec<(Text, Term)>, Memory>
    ensures entries { IfOk result (λ entries. entries.items ≡ map named_term terms.entries) }
    ensures sorted { IfOk result (λ entries. AreSorted entries.items) }
{
    let mut entries = Vec::new(alloc);
    for (name, term) in terms {
        entries.push((Text::from_string(name), term))?;
    }
    Ok(entries)
}
