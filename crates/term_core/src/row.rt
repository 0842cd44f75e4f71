//! Solution rows: names with terms.

ghost use Rattle.std.specs.Prelude.{◌≡◌, OnOk, OnErr, IfOk, slice_get, option_map};
ghost use Rattle.std.specs.Option.{option_copied};
ghost use Rattle.std.specs.FinMap as map;
ghost use Rattle.term_core.specs.Order.{bytes_cmp};
ghost use Rattle.term_core.specs.Rows.{AreSorted, IsRowPlace};

use crate::{Memory, Term, Text};
use std::alloc::Global;
use std::cmp::Ordering;
use std::marker::Model;

/// A solution mapping (SPARQL 1.1, section 18.1.8): some names, each with a term. Contracts see a
/// finite map from the names' bytes to terms.
#[derive(Debug, Drop)]
pub struct Row {
    entries: Vec<(Text, Term)>,
}

impl Model for Row {
    ghost use Rattle.std.specs.FinMap as map;
    ghost use Rattle.term_core.specs.declared.term.Term.{Term};
    ghost use Rattle.term_core.specs.Order.{bytes_cmp};
    ghost use Rattle.term_core.specs.Rows.{AreSorted};
    ghost use Rattle.std.specs.Coded.{coded_list, coded_ℕ};
    ghost use Rattle.term_core.specs.contracts.term.Term as term;

    ghost Value = { map.FinMap bytes_cmp Term };

    ghost coded = { map.code (coded_list coded_ℕ) term.the_row.coded };

    ghost view = { λ r. map.from_sorted r.entries.items };

    ghost invariant = { λ r. AreSorted r.entries.items };
}

impl Row {
    /// The row of entries that stand in the byte order of their names, each name once. They are taken and not copied.
    pub fn of_sorted(entries: Vec<(Text, Term)>) -> Row
        requires { AreSorted entries.items }
        ensures { result ≡ map.from_sorted entries.items }
    {
        Row { entries }
    }

    /// The row that binds no name. It keeps the allocator, and takes memory from it only in `set`.
    pub fn empty(alloc: Global) -> Row
        ensures { result ≡ map.empty }
    {
        Row {
            entries: Vec::new(alloc),
        }
    }

    /// An equal row with room of its own.
    pub fn copy(&self, alloc: Global) -> Result<Row, Memory>
        ensures { IfOk result (λ r. r ≡ self.now) }
    {
        let entries = copy_entries(alloc, &self.entries)?;
        Ok(Row { entries })
    }

    /// The term of `name`; None exactly where the name is unbound. The time is logarithmic in the names.
    pub fn get(&self, name: &[u8]) -> Option<&Term>
        ensures { option_copied result ≡ map.get self.now name.now }
    {
        find(&self.entries, name)
    }

    /// The entry at place `k`, counted from 0 in the byte order of the names; None exactly where the
    /// row has at most `k` names.
    pub fn entry(&self, k: usize) -> Option<(&Text, &Term)>
        ensures { option_map (λ e. (e.0.now, e.1.now)) result ≡ slice_get (map.entries self.now) k }
    {
        at(&self.entries, k)
    }

    /// All entries, in the byte order of the names.
    pub fn entries(&self) -> &[(Text, Term)]
        ensures { result.now ≡ map.entries self.now }
    {
        &self.entries
    }

    /// Binds `name` to `term`, in place of the term that it had. Where memory is wanting the row stays
    /// as it was, and name and term are let go. The time is linear in the names that stand there.
    pub fn set(&mut self, name: Text, term: Term) -> Result<(), Memory>
        ensures ok { OnOk result (self.new ≡ map.insert self.old name term) }
        ensures err { OnErr result (self.new ≡ self.old) }
    {
        put(&mut self.entries, name, term)?;
        Ok(())
    }
}

fn copy_entries(alloc: Global, entries: &[(Text, Term)]) -> Result<Vec<(Text, Term)>, Memory>
    ensures { IfOk result (λ copy. copy.items ≡ entries.now) }
{
    let mut copy = Vec::new(alloc);
    for entry in entries {
        let name = entry.0.copy(alloc)?;
        let term = entry.1.copy(alloc)?;
        copy.push((name, term))?;
    }
    Ok(copy)
}

fn at(entries: &[(Text, Term)], k: usize) -> Option<(&Text, &Term)>
    ensures { option_map (λ e. (e.0.now, e.1.now)) result ≡ slice_get entries.now k }
{
    match entries.get(k) {
        Some((name, term)) => Some((name, term)),
        None => None,
    }
}

// The term of a name among sorted entries, found by halves.
#[tactic(auto, using(crate::proofs::Halves::halves))]
fn find<'a>(entries: &'a [(Text, Term)], name: &[u8]) -> Option<&'a Term>
    requires { AreSorted entries.now }
    ensures { option_copied result ≡ map.find bytes_cmp name.now entries.now }
{
    let (before, rest) = entries.split_at(entries.len() / 2);
    match rest.split_first() {
        None => None,
        Some((entry, after)) => match name.cmp(entry.0.bytes()) {
            Ordering::Equal => Some(&entry.1),
            Ordering::Less => find(before, name),
            Ordering::Greater => find(after, name),
        },
    }
}

// Where the name stands, or else where it goes.
fn place(entries: &[(Text, Term)], name: &[u8]) -> Result<usize, usize>
    ensures { IsRowPlace result entries.now name.now }
{
    for (at, entry) in entries.iter().enumerate() {
        match name.cmp(entry.0.bytes()) {
            Ordering::Equal => return Ok(at),
            Ordering::Less => return Err(at),
            Ordering::Greater => {}
        }
    }
    Err(entries.len())
}

fn put(entries: &mut Vec<(Text, Term)>, name: Text, term: Term) -> Result<(), Memory>
    ensures ok { OnOk result (entries.new.items ≡ map.put bytes_cmp name term entries.old.items) }
    ensures err { OnErr result (entries.new.items ≡ entries.old.items) }
{
    match place(entries, name.bytes()) {
        Ok(at) => {
            entries[at] = (name, term);
            Ok(())
        }
        Err(at) => match entries.insert(at, (name, term)) {
            Ok(()) => Ok(()),
            Err(_) => Err(Memory),
        },
    }
}
