//! Hashes of rows. They only say where to look: rows of one hash are compared.

ghost use Rattle.std.specs.Prelude.{◌≡◌, ◌++◌, fold};
ghost use Rattle.std.specs.Hash as fed;
ghost use Rattle.std.specs.Hash.FoldHasher as folding;
ghost use Rattle.term_core.specs.Mappings.{value};
ghost use Rattle.term_core.specs.OrderLaws.{hash_writes};
ghost use Rattle.row_bag.specs.Hashes.{fed_values, fed_entry, fed_entries, hash_at, whole_hash};

use std::hash::{FoldHasher, Hash, Hasher};
use term_core::{Row, Term, Text};

fn feed_value(row: &Row, name: &[u8], state: &mut FoldHasher)
    ensures { state.new ≡ fold folding.write state.old (fed.option hash_writes (value row.now name.now)) }
{
    match row.get(name) {
        Some(term) => {
            state.write_isize(1);
            term.hash(state);
        }
        None => state.write_isize(0),
    }
}

fn feed_values(row: &Row, names: &[Text], state: &mut FoldHasher)
    ensures { state.new ≡ fold folding.write state.old (fed_values names.now row.now) }
{
    for name in names {
        feed_value(row, name.bytes(), state);
    }
}

/// The hash of a row's values at some names.
#[tactic(auto, unfolding(crate::specs::Hashes::hash_at))]
pub fn hash_values(names: &[Text], row: &Row) -> u64
    ensures { result ≡ hash_at names.now row.now }
{
    let mut state = FoldHasher::default();
    feed_values(row, names, &mut state);
    state.finish()
}

fn feed_entry(entry: &(Text, Term), state: &mut FoldHasher)
    ensures { state.new ≡ fold folding.write state.old (fed_entry entry.now) }
{
    entry.0.as_str().hash(state);
    entry.1.hash(state);
}

fn feed_entries(entries: &[(Text, Term)], state: &mut FoldHasher)
    ensures { state.new ≡ fold folding.write state.old (fed_entries entries.now) }
{
    for entry in entries {
        feed_entry(entry, state);
    }
}

/// The hash of a whole row.
#[tactic(auto, unfolding(crate::specs::Hashes::whole_hash))]
pub fn hash_row(row: &Row) -> u64
    ensures { result ≡ whole_hash row.now }
{
    let mut state = FoldHasher::default();
    feed_entries(row.entries(), &mut state);
    state.finish()
}
