// The triples that the entries of an order's tree spell.
ghost use Rattle.std.specs.Prelude.{◌≡◌, ◌<◌, ◌^◌, ℕ, Err, IfOk};
ghost use Rattle.sage_outside.specs.Parts.{IsPayload, Reads};
ghost use Rattle.store_image.specs.Keys.{index_numbered, ids_of_key};
ghost use Rattle.store_image.specs.Table.{IsBelow};
ghost use Rattle.triple_store.specs.Entries.{leaf_of, named_key};

use btree_scan::Tree;
use sage_outside::ReadFault;
use term_core::IdTriple;

/// The triple that has a key in the order of that number.
#[tactic(auto, using(crate::proofs::Orders::third))]
pub fn triple_of(order: u8, key: &IdTriple) -> IdTriple
    ensures is { result ≡ ids_of_key (index_numbered order) key.now }
    ensures below { (n : ℕ) → key.now.s < n → key.now.p < n → key.now.o < n → IsBelow n result }
{
    if order == 0 {
        *key
    } else if order == 1 {
        IdTriple {
            s: key.o,
            p: key.s,
            o: key.p,
        }
    } else {
        IdTriple {
            s: key.p,
            p: key.o,
            o: key.s,
        }
    }
}

/// What is to be told of the entry at a place, an id of which is no term's.
fn damaged(tree: &Tree, place: u32) -> ReadFault
    requires payload { IsPayload tree.now.payload }
    requires within { leaf_of tree.now place < 2 ^ 32 }
    ensures { result ≡ ReadFault.Damaged (leaf_of tree.now place) }
{
    ReadFault::Damaged {
        block: tree.first + place / (tree.payload / 12),
    }
}

/// The triple of the key that stands at a place of an order's tree, where its ids are below the
/// number of terms.
#[tactic(auto, unfolding(crate::specs::Entries::named_key))]
pub(crate) fn named(
    order: u8,
    terms: u32,
    tree: &Tree,
    place: u32,
    key: &IdTriple,
) -> Result<IdTriple, ReadFault>
    requires payload { IsPayload tree.now.payload }
    requires within { leaf_of tree.now place < 2 ^ 32 }
    ensures reads { Reads (λ t. t) result (named_key order terms tree.now place key.now) }
    ensures below { IfOk result (λ t. IsBelow terms t) }
    ensures failed { result ≡ Err ReadFault.Blocks → ⊥ }
{
    if key.s >= terms {
        return Err(damaged(tree, place));
    }
    if key.p >= terms {
        return Err(damaged(tree, place));
    }
    if key.o >= terms {
        return Err(damaged(tree, place));
    }
    Ok(triple_of(order, key))
}
