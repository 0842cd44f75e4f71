//! The triples in each of three orders, by their keys.

ghost use Rattle.std.specs.Prelude.{◌≡◌, IfOk, map};
ghost use Rattle.store_image.specs.Keys.{index_numbered, key_in, keys_by};

use crate::table::order_ids;
use std::alloc::Global;
use term_core::{IdTriple, Memory};

/// The numbers of a triple, those first that the order compares first. Order 0 is by subject, predicate
/// and object, 1 by predicate, object and subject, and 2 by object, subject and predicate.
pub fn key_in(order: u8, ids: &IdTriple) -> IdTriple
    ensures { result ≡ key_in (index_numbered order) ids.now }
{
    if order == 0 {
        *ids
    } else if order == 1 {
        IdTriple {
            s: ids.p,
            p: ids.o,
            o: ids.s,
        }
    } else {
        IdTriple {
            s: ids.o,
            p: ids.s,
            o: ids.p,
        }
    }
}

/// The keys of the triples, one for each, in the order in which the triples stand.
fn keys_of(alloc: Global, triples: &[IdTriple], order: u8) -> Result<Vec<IdTriple>, Memory>
    ensures { IfOk result (λ keys. keys.items ≡ map (key_in (index_numbered order)) triples.now) }
{
    let mut keys = Vec::with_capacity(alloc, triples.len())?;
    for ids in triples {
        keys.push(key_in(order, ids))?;
    }
    Ok(keys)
}

/// The keys of the triples, in order, each once. Order 0 is by subject, predicate and object, 1 by
/// predicate, object and subject, and 2 by object, subject and predicate.
pub fn keys_by(alloc: Global, triples: &[IdTriple], order: u8) -> Result<Vec<IdTriple>, Memory>
    ensures { IfOk result (λ keys. keys.items ≡ keys_by (index_numbered order) triples.now) }
{
    let mut keys = keys_of(alloc, triples, order)?;
    order_ids(&mut keys);
    Ok(keys)
}
