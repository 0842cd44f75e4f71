//! A store file of triples.
ghost use Rattle.std.specs.Prelude.{◌≡◌, ◌≤◌, ◌%◌, ◌+◌, ◌*◌, ◌/◌, ◌++◌, length, map, flat_map, All, IfOk, OnOk};
ghost use Rattle.sage_outside.specs.Parts.{IsPayload};
ghost use Rattle.term_core.specs.Order.{size_of, IsAllowed};
ghost use Rattle.term_core.specs.Spelling.{AreSpelled};
ghost use Rattle.term_core.specs.Bags.{In};
ghost use Rattle.term_core.specs.declared.term.Term.{Term as Terms};
ghost use Rattle.term_core.specs.Data.{parts};
ghost use Rattle.term_core.specs.Ids.{id_cmp};
ghost use Rattle.std.specs.List.Sorted.{IsStrictlySortedBy};
ghost use Rattle.term_dict.specs.Built.{records_of, AreTexts, AreShort};
ghost use Rattle.store_image.specs.Table.{terms_in, ids_in};
ghost use Rattle.store_image.specs.Keys.{index_numbered, keys_by};
ghost use Rattle.store_image.specs.Format.{IsFormat, payload_of, padded, spread};
ghost use Rattle.store_image.specs.Header.{header_bytes};
ghost use Rattle.store_image.specs.Image.{place_bytes, header_of, front_bytes, tree_in, trees_in, areas, file_bytes, IsImage};
ghost use Rattle.store_image.specs.Holds.{Holds};

use crate::blocks::{pad, put_tags, spread};
use crate::format::payload_of;
use crate::header::{Header, blocks_for, tree_blocks};
use crate::orders::keys_by;
use crate::table::Table;
use crate::table_id::data_id;
use btree_build::push_tree;
use std::alloc::Global;
use term_core::{IdTriple, Memory, Term, Triple};
use term_dict::{extent_of, push_places, push_records};

/// Appends the header, and zeros up to the end of its payload.
#[tactic(auto, using(crate::proofs::Padding::padded_put, crate::proofs::Padding::whole_padded))]
fn push_header(out: &mut Vec<u8>, header: &Header) -> Result<(), Memory>
    requires { length out.old.items % payload_of header.now.format ≡ 0 }
    ensures put { OnOk result (out.new.items ≡ out.old.items ++ padded (payload_of header.now.format) (header_bytes header.now)) }
    ensures whole { OnOk result (length out.new.items % payload_of header.now.format ≡ 0) }
{
    header.push(out)?;
    pad(out, header.payload() as usize)
}

/// Appends the numbers that tell where records begin, and zeros up to the end of a payload.
#[tactic(auto, using(crate::proofs::Padding::padded_put, crate::proofs::Padding::whole_padded))]
fn push_place_blocks(out: &mut Vec<u8>, terms: &[&Term], payload: usize) -> Result<(), Memory>
    requires payload { IsPayload payload }
    requires begin { length out.old.items % payload ≡ 0 }
    requires few { length terms.now ≤ 12582909 }
    requires short { AreShort (map (λ t. t.now) terms.now) }
    ensures put { OnOk result (out.new.items ≡ out.old.items ++ padded payload (place_bytes (map (λ t. t.now) terms.now))) }
    ensures whole { OnOk result (length out.new.items % payload ≡ 0) }
{
    push_places(out, terms)?;
    pad(out, payload)
}

/// Appends the records, and zeros up to the end of a payload.
#[tactic(auto, using(crate::proofs::Padding::padded_put, crate::proofs::Padding::whole_padded))]
fn push_record_blocks(out: &mut Vec<u8>, terms: &[&Term], payload: usize) -> Result<(), Memory>
    requires payload { IsPayload payload }
    requires begin { length out.old.items % payload ≡ 0 }
    requires short { AreShort (map (λ t. t.now) terms.now) }
    ensures put { OnOk result (out.new.items ≡ out.old.items ++ padded payload (records_of (map (λ t. t.now) terms.now))) }
    ensures whole { OnOk result (length out.new.items % payload ≡ 0) }
    ensures texts { OnOk result (AreTexts (map (λ t. t.now) terms.now)) }
{
    push_records(out, terms)?;
    pad(out, payload)
}

/// The payloads of the first three areas, in room for the whole file.
fn front(alloc: Global, table: &Table, header: &Header) -> Result<Vec<u8>, Memory>
    requires few { length (terms_in table.now) ≤ 12582909 }
    requires short { AreShort (terms_in table.now) }
    ensures front { IfOk result (λ out. out.items ≡ front_bytes header.now (terms_in table.now)) }
    ensures whole { IfOk result (λ out. length out.items % payload_of header.now.format ≡ 0) }
    ensures texts { OnOk result (AreTexts (terms_in table.now)) }
{
    let payload = header.payload() as usize;
    let mut out = Vec::with_capacity(alloc, 4096 * header.blocks as usize)?;
    push_header(&mut out, header)?;
    push_place_blocks(&mut out, table.terms(), payload)?;
    push_record_blocks(&mut out, table.terms(), payload)?;
    Ok(out)
}

/// Appends the tree of keys that rise strictly.
#[tactic(auto, unfolding(crate::specs::Image::tree_in))]
fn push_keys(
    alloc: Global,
    out: &mut Vec<u8>,
    keys: &[IdTriple],
    payload: u32,
) -> Result<(), Memory>
    requires few { length keys.now ≤ 4194303 }
    requires payload { IsPayload payload }
    ensures { OnOk result (out.new.items ≡ out.old.items ++ tree_in payload keys.now) }
{
    push_tree(alloc, out, keys, payload)
}

/// Appends the tree of an order, whose keys are sorted for it.
fn push_order(
    alloc: Global,
    out: &mut Vec<u8>,
    triples: &[IdTriple],
    order: u8,
    payload: u32,
) -> Result<(), Memory>
    requires few { length triples.now ≤ 4194303 }
    requires ordered { IsStrictlySortedBy id_cmp triples.now }
    requires payload { IsPayload payload }
    ensures { OnOk result (out.new.items ≡ out.old.items ++ tree_in payload (keys_by (index_numbered order) triples.now)) }
{
    let keys = keys_by(alloc, triples, order)?;
    push_keys(alloc, out, keys.as_slice(), payload)
}

/// Appends the trees of triples in order. For the first of them they are in order already.
fn push_trees(
    alloc: Global,
    out: &mut Vec<u8>,
    triples: &[IdTriple],
    payload: u32,
) -> Result<(), Memory>
    requires few { length triples.now ≤ 4194303 }
    requires ordered { IsStrictlySortedBy id_cmp triples.now }
    requires payload { IsPayload payload }
    ensures { OnOk result (out.new.items ≡ out.old.items ++ trees_in payload triples.now) }
{
    push_keys(alloc, out, triples, payload)?;
    push_order(alloc, out, triples, 1, payload)?;
    push_order(alloc, out, triples, 2, payload)?;
    Ok(())
}

/// The header of a file of a format, of the table's terms and triples.
fn header_of(table: &Table, name: [u8; 32], format: u8) -> Header
    requires few_terms { length (terms_in table.now) ≤ 12582909 }
    requires few_triples { length (ids_in table.now) ≤ 4194303 }
    requires short { AreShort (terms_in table.now) }
    ensures { result ≡ header_of format (terms_in table.now) (ids_in table.now) name }
{
    let extent = extent_of(table.terms());
    let payload = payload_of(format);
    let places = blocks_for(payload as u64, 8 * (table.term_count() as u64 + 1));
    let records = blocks_for(payload as u64, extent.bytes);
    let trees = 3 * tree_blocks(payload, table.len() as u32);
    Header {
        format,
        blocks: (1 + places + trees + records) as u32,
        terms: table.term_count() as u32,
        triples: table.len() as u32,
        longest: extent.longest,
        data_id: name,
    }
}

/// The blocks of a file with that header, the table's terms and its triples, without their tags.
fn untagged(alloc: Global, table: &Table, header: &Header) -> Result<Vec<u8>, Memory>
    requires few { length (terms_in table.now) ≤ 12582909 }
    requires few_triples { length (ids_in table.now) ≤ 4194303 }
    requires short { AreShort (terms_in table.now) }
    requires ordered { IsStrictlySortedBy id_cmp (ids_in table.now) }
    ensures areas { IfOk result (λ out. out.items ≡ areas header.now (terms_in table.now) (ids_in table.now)) }
    ensures texts { OnOk result (AreTexts (terms_in table.now)) }
{
    let mut out = front(alloc, table, header)?;
    spread(&mut out, header.payload() as usize)?;
    push_trees(alloc, &mut out, table.triples(), header.payload())?;
    Ok(out)
}

/// The bytes of a file with that header, the table's terms and its triples.
fn written(alloc: Global, table: &Table, header: &Header) -> Result<Vec<u8>, Memory>
    requires few { length (terms_in table.now) ≤ 12582909 }
    requires few_triples { length (ids_in table.now) ≤ 4194303 }
    requires short { AreShort (terms_in table.now) }
    requires ordered { IsStrictlySortedBy id_cmp (ids_in table.now) }
    requires whole { length (areas header.now (terms_in table.now) (ids_in table.now)) ≡ 4096 * header.now.blocks }
    ensures image { IfOk result (λ image. image.items ≡ file_bytes header.now (terms_in table.now) (ids_in table.now)) }
    ensures texts { OnOk result (AreTexts (terms_in table.now)) }
{
    let mut out = untagged(alloc, table, header)?;
    put_tags(out.as_mut_slice(), header.payload(), header.blocks);
    Ok(out)
}

/// The bytes of the store file of a document's triples in a format, in blocks of 4,096. They are a
/// set (RDF 1.1 Concepts, section 3): neither their order counts nor how often one stands.
/// `have_short_terms` tells whether `short` holds, and what `nt_text::read_document` answers meets
/// each clause. Want of memory is the one error.
///
/// Terms are compared once, to put them in order, and the triples are sorted as numbers, once for
/// each order. Room for the whole file is taken at once, when what numbered the terms is let go, and
/// each part is written to it once.
pub fn image_of(alloc: Global, triples: &[Triple], format: u8) -> Result<Vec<u8>, Memory>
    requires format { IsFormat format }
    requires few { length triples.now ≤ 4194303 }
    requires allowed { All IsAllowed triples.now }
    requires spelled { All AreSpelled triples.now }
    requires short { (t : Terms) → In (flat_map parts triples.now) t → size_of t ≤ 262144 }
    ensures image { IfOk result (λ image. IsImage triples.now format image.items) }
    ensures holds { IfOk result (λ image. Holds triples.now format image.items) }
{
    let table = Table::build(alloc, triples)?;
    let name = data_id(alloc, &table)?;
    let header = header_of(&table, name, format);
    written(alloc, &table, &header)
}

/// The bytes of the store file of a document's triples in format 2, as `image_of` has it.
pub fn image(alloc: Global, triples: &[Triple]) -> Result<Vec<u8>, Memory>
    requires few { length triples.now ≤ 4194303 }
    requires allowed { All IsAllowed triples.now }
    requires spelled { All AreSpelled triples.now }
    requires short { (t : Terms) → In (flat_map parts triples.now) t → size_of t ≤ 262144 }
    ensures image { IfOk result (λ image. IsImage triples.now 2 image.items) }
    ensures holds { IfOk result (λ image. Holds triples.now 2 image.items) }
{
    image_of(alloc, triples, 2)
}
