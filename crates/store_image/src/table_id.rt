//! The name of the data: a digest of its triples.

ghost use Rattle.std.specs.Prelude.{◌≡◌, ◌++◌, List, length, OnOk, IfOk};
ghost use Rattle.term_core.specs.declared.term.Triple.{Triple};
ghost use Rattle.term_core.specs.Texts.{triple_text};
ghost use Rattle.term_core.specs.Data.{data_id};
ghost use Rattle.store_image.specs.Table.{IsBelow, AreBelow, IsTable, terms_in, ids_in, decode};

use crate::Table;
use nt_text::push_line;
use sha2::{Digest, Sha256};
use std::alloc::Global;
use term_core::{IdTriple, Memory};

/// Appends the line of a triple of the table.
fn push_ids(out: &mut Vec<u8>, table: &Table, ids: IdTriple) -> Result<(), Memory>
    requires { IsBelow (length (terms_in table.now)) ids }
    ensures { OnOk result (out.new.items ≡ out.old.items ++ triple_text (decode (terms_in table.now) ids)) }
{
    push_line(out, table.term(ids.s), table.term(ids.p), table.term(ids.o))
}

/// SHA-256 (FIPS 180-4) of the lines of the data's triples, ordered by subject, predicate and
/// object. So two documents with the same triples have the same name, whatever their order.
pub fn data_id(alloc: Global, table: &Table) -> Result<[u8; 32], Memory>
    requires { AreBelow (length (terms_in table.now)) (ids_in table.now) }
    ensures { (L : List Triple) → IsTable L (terms_in table.now) (ids_in table.now) → IfOk result (λ digest. digest ≡ data_id L) }
{
    let mut hasher = Sha256::new();
    let mut line = Vec::new(alloc);
    for ids in table.triples() {
        line.clear();
        push_ids(&mut line, table, *ids)?;
        hasher.update(line.as_slice());
    }
    Ok(hasher.finalize())
}
