//! An opened store.
ghost use Rattle.std.specs.Prelude.{◌≡◌, ◌<◌, ◌≤◌, ◌↔◌, ◌+◌, ◌*◌, ◌/◌, ℕ, List, length, slice_get, count_by, Some, None, Contains, IsTrue, Ok, Err, IfOk, IfErr, MatchResult, true};
ghost use Rattle.std.specs.Ordering.{is_lt};
ghost use Rattle.term_core.specs.declared.term.Term.{Term as Terms};
ghost use Rattle.term_core.specs.declared.term.Triple.{Triple as Triples};
ghost use Rattle.term_core.specs.declared.pattern.IdTriple.{IdTriple as Ids};
ghost use Rattle.term_core.specs.Ids.{id_cmp};
ghost use Rattle.sage_outside.specs.Causes.{Rose};
ghost use Rattle.sage_outside.specs.Blocks.{HasRead, Tells, block_at};
ghost use Rattle.sage_outside.specs.Parts.{Reads};
ghost use Rattle.term_dict.specs.Layout.{ReadsImage, stored_term, longest_record};
ghost use Rattle.term_dict.specs.Ranks.{IsRank, IsGap};
ghost use Rattle.btree_scan.specs.Cuts.{IsKeyRange};
ghost use Rattle.btree_scan.specs.Levels.{key_at};
ghost use Rattle.store_image.specs.Table.{IsBelow, IsFound};
ghost use Rattle.store_image.specs.Keys.{index_numbered, key_in, keys_by};
ghost use Rattle.store_image.specs.declared.header.Header.{Header as Headers};
ghost use Rattle.store_image.specs.Holds.{Holds};
ghost use Rattle.store_image.specs.Header.{IsHeader, dict_of, tree_of};
ghost use Rattle.triple_store.specs.Stores.{View, IsOpened, IsKept, IsShown, IsStoreOf, IsCause, IsOutside};
ghost use Rattle.triple_store.specs.Entries.{HasEntry, IsDamaged, stored_triple};

use crate::list::named;
use block_cache::BlockCache;
use btree_scan::{Prefix, entry, lower_bound, range};
use sage_outside::{Blocks, ReadFault, StoreFault};
use std::alloc::Global;
use std::marker::Model;
use store_image::{Header, HeaderFault, key_in};
use term_core::{IdTriple, Term};

/// How many blocks a store keeps in memory, of 4,096 bytes each.
const KEPT: u32 = 256;

/// An opened store: its blocks, of which those used last are kept in memory, and the header that
/// the first of them told.
#[derive(Drop)]
pub struct Store<B: Blocks> {
    blocks: BlockCache<B>,
    header: Header,
}

impl<B: Blocks> Model for Store<B> {
    ghost Value = { View };

    ghost view = { λ s. record { header = s.header; device = B.device s.blocks.0 } };

    ghost invariant = { λ s. IsOpened s.header (B.device s.blocks.0).count };
}

/// Why blocks were not opened as a store.
#[derive(Clone, Copy, Debug, PartialEq, Eq)]
pub enum OpenFault {
    /// The first block is no header of a file of so many blocks.
    NotAStore,
    /// The first block could not be read.
    Blocks,
    /// The first block has the mark of format 2 and does not agree with its tag; the number is 0.
    Damaged { block: u32 },
    /// The allocator had no room.
    Memory,
}

/// Blocks that were not opened, given back.
#[derive(Drop)]
pub struct Unopened<B: Blocks> {
    /// Why they were not.
    pub fault: OpenFault,
    /// The blocks, with the counts as they stand.
    pub blocks: B,
}

/// What the header of a store tells.
#[derive(Clone, Copy, Debug, PartialEq, Eq)]
pub struct Info {
    /// The format: 1, or 2, in which each block ends with a tag.
    pub format: u8,
    /// The number of terms.
    pub terms: u32,
    /// The number of triples.
    pub triples: u32,
    /// The bytes of the longest record of a term.
    pub longest: u32,
    /// The number of blocks, of 4,096 bytes each.
    pub blocks: u32,
}

/// The header that a first block of `count` blocks tells.
fn header_in(block: &[u8; 4096], count: u32) -> Result<Header, OpenFault>
    ensures header { IfOk result (IsHeader block.now count) }
    ensures cause { IfErr result (IsCause block.now count) }
    ensures own { result ≡ Err OpenFault.Blocks → ⊥ }
{
    match Header::read(block, count) {
        Ok(header) => Ok(header),
        Err(HeaderFault::NotAStore) => Err(OpenFault::NotAStore),
        Err(HeaderFault::Damaged) => Err(OpenFault::Damaged { block: 0 }),
    }
}

/// The header of blocks.
fn header_of<B: Blocks>(blocks: &mut B) -> Result<Header, OpenFault>
    ensures read { HasRead (B.device blocks.old) (B.device blocks.new) 1 }
    ensures opened { IfOk result (λ h. IsOpened h (B.device blocks.old).count) }
    ensures header { (image : List ℕ) → Tells (B.device blocks.old).image image
        → IfOk result (λ h. IsHeader (block_at 0 image) (B.device blocks.old).count h) }
    ensures cause { (image : List ℕ) → Tells (B.device blocks.old).image image
        → IfErr result (IsCause (block_at 0 image) (B.device blocks.old).count) }
    ensures failed { result ≡ Err OpenFault.Blocks → Rose (B.device blocks.old).faults (B.device blocks.new).faults }
    ensures none { (B.device blocks.old).count ≡ 0
        → (result ≡ Err OpenFault.NotAStore) × (B.device blocks.new ≡ B.device blocks.old) }
{
    let count = blocks.blocks();
    if count == 0 {
        return Err(OpenFault::NotAStore);
    }
    let mut block = [0; 4096];
    match blocks.read_block(0, &mut block) {
        Ok(()) => header_in(&block, count),
        Err(_) => Err(OpenFault::Blocks),
    }
}

/// The store of blocks with that header, which keeps none of them yet.
fn with_cache<B: Blocks>(alloc: Global, blocks: B, header: Header) -> Result<Store<B>, Unopened<B>>
    requires { IsOpened header (B.device blocks).count }
    ensures made { IfOk result (λ s. s ≡ record { header = header; device = B.device blocks }) }
    ensures memory { IfErr result (λ u. u.fault ≡ OpenFault.Memory) }
    ensures back { IfErr result (λ u. u.blocks ≡ blocks) }
{
    match BlockCache::new(alloc, blocks, KEPT) {
        Ok(blocks) => Ok(Store { blocks, header }),
        Err(uncached) => Err(Unopened {
            fault: OpenFault::Memory,
            blocks: uncached.blocks,
        }),
    }
}

impl<B: Blocks> Store<B> {
    /// Opens the blocks as a store that keeps at most 256 of them in memory. The first block alone
    /// is read; where there is none, nothing is.
    ///
    /// The mark of the first block is looked at first, then, in format 2, its tag, and then its
    /// numbers. So `Damaged` comes exactly where the block has the mark of format 2 and not its tag,
    /// and `NotAStore` exactly where else it is no header of a file of so many blocks, also where
    /// there is no block at all; blocks that hold data are a store of these data. `Blocks` comes
    /// only where the read failed. The blocks are given back with each.
    pub fn open(alloc: Global, blocks: B) -> Result<Store<B>, Unopened<B>>
        ensures opened { IfOk result (λ s. HasRead (B.device blocks) s.device 1) }
        ensures given_back { IfErr result (λ u. HasRead (B.device blocks) (B.device u.blocks) 1) }
        ensures header { (image : List ℕ) → Tells (B.device blocks).image image
            → IfOk result (λ s. IsHeader (block_at 0 image) (B.device blocks).count s.header) }
        ensures cause { (image : List ℕ) → Tells (B.device blocks).image image
            → IfErr result (λ u. IsCause (block_at 0 image) (B.device blocks).count u.fault) }
        ensures failed { IfErr result (λ u. u.fault ≡ OpenFault.Blocks → Rose (B.device blocks).faults (B.device u.blocks).faults) }
        ensures holds { (L : List Triples) (format : ℕ) (image : List ℕ) → Tells (B.device blocks).image image → Holds L format image
            → MatchResult result (λ s. IsStoreOf s L) (λ u. IsOutside u.fault) }
        ensures none { (B.device blocks).count ≡ 0
            → MatchResult result (λ _. ⊥) (λ u. (u.fault ≡ OpenFault.NotAStore) × (B.device u.blocks ≡ B.device blocks)) }
    {
        let mut blocks = blocks;
        match header_of(&mut blocks) {
            Ok(header) => with_cache(alloc, blocks, header),
            Err(fault) => Err(Unopened { fault, blocks }),
        }
    }

    /// The term of that rank. Memory is taken for its record and for the term.
    ///
    /// `Damaged` comes exactly where the two numbers of the record or the record are not well
    /// formed, and names the block in which the broken one begins, or where in format 2 the tag of a
    /// block that holds a part of them does not agree, and names that block. `Blocks` comes only
    /// where a read failed. At most 4 + L / 4080 blocks are read, with L the bytes of the longest
    /// record.
    #[tactic(auto, using(crate::proofs::Opened::dict_lies))]
    pub fn term(&mut self, alloc: Global, id: u32) -> Result<Term, StoreFault>
        requires within { id < self.old.header.terms }
        ensures kept { IsKept self.old self.new }
        ensures cost { HasRead self.old.device self.new.device (4 + (dict_of self.old.header).bytes / 4080) }
        ensures few_reads { (image : List ℕ) → Tells self.old.device.image image
            → self.new.device.reads ≤ self.old.device.reads + (4 + longest_record (dict_of self.old.header) image / 4080) }
        ensures reads { (terms : List Terms) (ids : List Ids) → IsShown self.old terms ids
            → self.new.device.reads ≤ self.old.device.reads + (4 + self.old.header.longest / 4080) }
        ensures failed { result ≡ Err StoreFault.Blocks → Rose self.old.device.faults self.new.device.faults }
        ensures read { (image : List ℕ) → Tells self.old.device.image image
            → ReadsImage (λ t. t) result (stored_term (dict_of self.old.header) id image) }
        ensures damaged { (image : List ℕ) (block : ℕ) → Tells self.old.device.image image
            → result ≡ Err (StoreFault.Damaged block) → IsDamaged self.old.header image block }
        ensures found { (terms : List Terms) (ids : List Ids) → IsShown self.old terms ids
            → IfOk result (λ t. slice_get terms id ≡ Some t) }
        ensures whole { (terms : List Terms) (ids : List Ids) (block : ℕ) → IsShown self.old terms ids
            → result ≡ Err (StoreFault.Damaged block) → ⊥ }
    {
        let dict = self.header.dict();
        dict.term(alloc, &mut self.blocks, id)
    }

    /// The rank of the term, or `None` where the data lack it. Memory is taken for the bytes of one
    /// record at a time.
    ///
    /// `Damaged` names the block in which a broken number or record begins that the search came
    /// upon, or a block of them whose tag does not agree. `Blocks` comes only where a read failed. At
    /// most 25 times as many blocks are read as for a term.
    #[tactic(auto, using(crate::proofs::Opened::dict_lies))]
    pub fn id_of(&mut self, alloc: Global, t: &Term) -> Result<Option<u32>, StoreFault>
        ensures kept { IsKept self.old self.new }
        ensures cost { HasRead self.old.device self.new.device (32 * (4 + (dict_of self.old.header).bytes / 4080)) }
        ensures few_reads { (image : List ℕ) → Tells self.old.device.image image
            → self.new.device.reads ≤ self.old.device.reads + 25 * (4 + longest_record (dict_of self.old.header) image / 4080) }
        ensures reads { (terms : List Terms) (ids : List Ids) → IsShown self.old terms ids
            → self.new.device.reads ≤ self.old.device.reads + 25 * (4 + self.old.header.longest / 4080) }
        ensures failed { result ≡ Err StoreFault.Blocks → Rose self.old.device.faults self.new.device.faults }
        ensures there { (image : List ℕ) (k : ℕ) → Tells self.old.device.image image
            → result ≡ Ok (Some k)
            → (k < self.old.header.terms) × (stored_term (dict_of self.old.header) k image ≡ Ok t.now) }
        ensures absent { (image : List ℕ) → Tells self.old.device.image image
            → result ≡ Ok None → IsGap (dict_of self.old.header) t.now image }
        ensures damaged { (image : List ℕ) (block : ℕ) → Tells self.old.device.image image
            → result ≡ Err (StoreFault.Damaged block) → IsDamaged self.old.header image block }
        ensures found { (terms : List Terms) (ids : List Ids) → IsShown self.old terms ids
            → IfOk result (IsRank terms t.now) }
        ensures whole { (terms : List Terms) (ids : List Ids) (block : ℕ) → IsShown self.old terms ids
            → result ≡ Err (StoreFault.Damaged block) → ⊥ }
    {
        let dict = self.header.dict();
        dict.id_of(alloc, &mut self.blocks, t)
    }

    /// Whether the data have that triple of ranks: a search in the tree by subject. At most 4 blocks
    /// are read.
    ///
    /// `Blocks` comes only where a read failed, and `Damaged` only where in format 2 the tag of that
    /// block does not agree.
    pub fn has(&mut self, t: &IdTriple) -> Result<bool, ReadFault>
        ensures kept { IsKept self.old self.new }
        ensures cost { HasRead self.old.device self.new.device 4 }
        ensures failed { result ≡ Err ReadFault.Blocks → Rose self.old.device.faults self.new.device.faults }
        ensures there { (image : List ℕ) → Tells self.old.device.image image → result ≡ Ok true
            → (place : ℕ) × HasEntry self.old.header 0 t.now image place }
        ensures found { (terms : List Terms) (ids : List Ids) → IsShown self.old terms ids
            → IfOk result (λ b. IsTrue b ↔ Contains ids t.now) }
        ensures damaged { (image : List ℕ) (block : ℕ) → Tells self.old.device.image image
            → result ≡ Err (ReadFault.Damaged block) → IsDamaged self.old.header image block }
        ensures whole { (terms : List Terms) (ids : List Ids) (block : ℕ) → IsShown self.old terms ids
            → result ≡ Err (ReadFault.Damaged block) → ⊥ }
    {
        Ok(self.place_in(0, t)?.is_some())
    }

    /// The name of the data, as the header tells it.
    pub fn data_id(&self) -> &[u8; 32]
        ensures { result.now ≡ self.now.header.data_id }
    {
        &self.header.data_id
    }

    /// What the header tells. Nothing is read.
    pub fn info(&self) -> Info
        ensures { result ≡ record { format = self.now.header.format; terms = self.now.header.terms; triples = self.now.header.triples; longest = self.now.header.longest; blocks = self.now.header.blocks } }
    {
        Info {
            format: self.header.format,
            terms: self.header.terms,
            triples: self.header.triples,
            longest: self.header.longest,
            blocks: self.header.blocks,
        }
    }

    /// How many triples of the data have keys below that key, in the order of that number: 0 by
    /// subject, predicate and object, 1 by predicate, object and subject, 2 by object, subject and
    /// predicate. The key is given as a triple.
    ///
    /// `Blocks` comes only where a read failed, and `Damaged` only where in format 2 the tag of that
    /// block does not agree. At most 3 blocks are read.
    #[tactic(auto, using(crate::proofs::Opened::list_lies))]
    pub fn lower_bound(&mut self, order: u8, key: &IdTriple) -> Result<u32, ReadFault>
        requires order { order ≤ 2 }
        ensures kept { IsKept self.old self.new }
        ensures cost { HasRead self.old.device self.new.device 3 }
        ensures failed { result ≡ Err ReadFault.Blocks → Rose self.old.device.faults self.new.device.faults }
        ensures within { IfOk result (λ n. n ≤ self.old.header.triples) }
        ensures found { (terms : List Terms) (ids : List Ids) → IsShown self.old terms ids
            → IfOk result (λ n. n ≡ count_by (λ k. is_lt (id_cmp k (key_in (index_numbered order) key.now))) (keys_by (index_numbered order) ids)) }
        ensures damaged { (image : List ℕ) (block : ℕ) → Tells self.old.device.image image
            → result ≡ Err (ReadFault.Damaged block) → IsDamaged self.old.header image block }
        ensures whole { (terms : List Terms) (ids : List Ids) (block : ℕ) → IsShown self.old terms ids
            → result ≡ Err (ReadFault.Damaged block) → ⊥ }
    {
        let list = self.header.tree(order);
        lower_bound(&list, &mut self.blocks, &key_in(order, key))
    }

    /// The first place of the triples whose keys in that order begin with the prefix, and the place
    /// behind the last of them. Both are the same where there are none.
    ///
    /// `Blocks` comes only where a read failed, and `Damaged` only where in format 2 the tag of that
    /// block does not agree. At most 6 blocks are read.
    #[tactic(auto, using(crate::proofs::Opened::list_lies))]
    pub fn range(&mut self, order: u8, prefix: &Prefix) -> Result<(u32, u32), ReadFault>
        requires order { order ≤ 2 }
        requires len { prefix.now.len ≤ 3 }
        ensures kept { IsKept self.old self.new }
        ensures cost { HasRead self.old.device self.new.device 6 }
        ensures failed { result ≡ Err ReadFault.Blocks → Rose self.old.device.faults self.new.device.faults }
        ensures within { IfOk result (λ x. (x.0 ≤ x.1) × (x.1 ≤ self.old.header.triples)) }
        ensures found { (terms : List Terms) (ids : List Ids) → IsShown self.old terms ids
            → IfOk result (λ x. IsKeyRange prefix.now (keys_by (index_numbered order) ids) x.0 x.1) }
        ensures damaged { (image : List ℕ) (block : ℕ) → Tells self.old.device.image image
            → result ≡ Err (ReadFault.Damaged block) → IsDamaged self.old.header image block }
        ensures whole { (terms : List Terms) (ids : List Ids) (block : ℕ) → IsShown self.old terms ids
            → result ≡ Err (ReadFault.Damaged block) → ⊥ }
    {
        let list = self.header.tree(order);
        range(&list, &mut self.blocks, prefix)
    }

    /// The triple at a place of that order, each term by its rank.
    ///
    /// `Blocks` comes only where a read failed. `Damaged` comes exactly where an id of the entry is
    /// no term's, or in format 2 the tag of its block does not agree, and names its block. One block
    /// is read.
    #[tactic(auto, using(crate::proofs::Opened::list_lies))]
    pub fn entry(&mut self, order: u8, place: u32) -> Result<IdTriple, ReadFault>
        requires order { order ≤ 2 }
        requires within { place < self.old.header.triples }
        ensures kept { IsKept self.old self.new }
        ensures cost { HasRead self.old.device self.new.device 1 }
        ensures failed { result ≡ Err ReadFault.Blocks → Rose self.old.device.faults self.new.device.faults }
        ensures named { IfOk result (λ t. IsBelow self.old.header.terms t) }
        ensures read { (image : List ℕ) → Tells self.old.device.image image
            → Reads (λ t. t) result (stored_triple self.old.header order place image) }
        ensures damaged { (image : List ℕ) (block : ℕ) → Tells self.old.device.image image
            → result ≡ Err (ReadFault.Damaged block) → IsDamaged self.old.header image block }
        ensures found { (terms : List Terms) (ids : List Ids) → IsShown self.old terms ids
            → IfOk result (λ t. slice_get (keys_by (index_numbered order) ids) place ≡ Some (key_in (index_numbered order) t)) }
        ensures whole { (terms : List Terms) (ids : List Ids) (block : ℕ) → IsShown self.old terms ids
            → result ≡ Err (ReadFault.Damaged block) → ⊥ }
    {
        let list = self.header.tree(order);
        let key = entry(&list, &mut self.blocks, place)?;
        named(order, self.header.terms, &list, place, &key)
    }

    /// The key at a place of that order.
    #[tactic(auto, using(crate::proofs::Opened::list_lies))]
    fn key_at(&mut self, order: u8, place: u32) -> Result<IdTriple, ReadFault>
        requires order { order ≤ 2 }
        requires within { place < self.old.header.triples }
        ensures kept { IsKept self.old self.new }
        ensures cost { HasRead self.old.device self.new.device 1 }
        ensures failed { result ≡ Err ReadFault.Blocks → Rose self.old.device.faults self.new.device.faults }
        ensures read { (image : List ℕ) → Tells self.old.device.image image
            → Reads (λ key. key) result (key_at (tree_of self.old.header order) 0 place image) }
        ensures found { (terms : List Terms) (ids : List Ids) → IsShown self.old terms ids
            → IfOk result (λ key. slice_get (keys_by (index_numbered order) ids) place ≡ Some key) }
        ensures damaged { (image : List ℕ) (block : ℕ) → Tells self.old.device.image image
            → result ≡ Err (ReadFault.Damaged block) → IsDamaged self.old.header image block }
        ensures whole { (terms : List Terms) (ids : List Ids) (block : ℕ) → IsShown self.old terms ids
            → result ≡ Err (ReadFault.Damaged block) → ⊥ }
    {
        let list = self.header.tree(order);
        entry(&list, &mut self.blocks, place)
    }

    /// The place of the triple in an order's list, or `None` where it is not there: a search in the
    /// order's tree. At most 4 blocks are read.
    ///
    /// `Blocks` comes only where a read failed, and `Damaged` only where in format 2 the tag of that
    /// block does not agree.
    pub fn place_in(&mut self, order: u8, t: &IdTriple) -> Result<Option<u32>, ReadFault>
        requires order { order ≤ 2 }
        ensures kept { IsKept self.old self.new }
        ensures cost { HasRead self.old.device self.new.device 4 }
        ensures within { (place : ℕ) → result ≡ Ok (Some place) → place < self.old.header.triples }
        ensures failed { result ≡ Err ReadFault.Blocks → Rose self.old.device.faults self.new.device.faults }
        ensures there { (image : List ℕ) (place : ℕ) → Tells self.old.device.image image → result ≡ Ok (Some place)
            → HasEntry self.old.header order t.now image place }
        ensures found { (terms : List Terms) (ids : List Ids) → IsShown self.old terms ids
            → IfOk result (IsFound (keys_by (index_numbered order) ids) (key_in (index_numbered order) t.now)) }
        ensures damaged { (image : List ℕ) (block : ℕ) → Tells self.old.device.image image
            → result ≡ Err (ReadFault.Damaged block) → IsDamaged self.old.header image block }
        ensures whole { (terms : List Terms) (ids : List Ids) (block : ℕ) → IsShown self.old terms ids
            → result ≡ Err (ReadFault.Damaged block) → ⊥ }
    {
        let place = self.lower_bound(order, t)?;
        if place >= self.header.triples {
            return Ok(None);
        }
        let key = self.key_at(order, place)?;
        if key == key_in(order, t) {
            Ok(Some(place))
        } else {
            Ok(None)
        }
    }

    /// The blocks, with the counts as they stand.
    pub fn close(self) -> B
        ensures { B.device result ≡ self.device }
    {
        self.blocks.close()
    }
}
