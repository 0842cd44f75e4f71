//! The triples of a store that agree with the terms of a pattern.
ghost use Rattle.std.specs.Prelude.{◌^◌, ◌≡◌, ◌<◌, ◌≤◌, ◌+◌, ◌-◌, ◌*◌, ◌/◌, ℕ, List, Option, length, slice_get, Some, None, is_some, Ok, Err, IfOk};
ghost use Rattle.std.specs.FinMap as finmap;
ghost use Rattle.term_core.specs.declared.term.Term.{Term as Terms};
ghost use Rattle.term_core.specs.declared.term.Triple.{Triple as Triples};
ghost use Rattle.term_core.specs.declared.pattern.IdTriple.{IdTriple as Ids};
ghost use Rattle.sage_outside.specs.Causes.{Rose};
ghost use Rattle.sage_outside.specs.Blocks.{HasRead, Tells};
ghost use Rattle.term_core.specs.Mappings.{Row};
ghost use Rattle.term_core.specs.Patterns.{Pattern as Patterns, pattern_of, position_of, filled, fits, agrees};
ghost use Rattle.term_core.specs.Index.{index_of, range as agreeing};
ghost use Rattle.term_dict.specs.Layout.{ReadsImage, longest_record};
ghost use Rattle.store_image.specs.Header.{dict_of};
ghost use Rattle.triple_store.specs.Entries.{stored_triple, HasEntry, IsDamaged};
ghost use Rattle.store_image.specs.Table.{IsTable, IsFound, IsBelow, term_numbered, decode};
ghost use Rattle.store_image.specs.Keys.{index_numbered};
ghost use Rattle.triple_store.specs.Asked.{admits, is_bound, asks_for, index_for};
ghost use Rattle.triple_store.specs.Stretches.{IsKeyStretch};
ghost use Rattle.triple_store.specs.Stores.{View, IsKept, IsShown};
ghost use Rattle.triple_store.specs.Ranges.{IsInStore, IsAskedBy, IsRangeOf, triples_at};

use crate::asked::{Asked, Wanted};
use crate::store::Store;
use sage_outside::{Blocks, ReadFault, StoreFault};
use std::alloc::Global;
use term_core::{IdTriple, Pattern, Place};

/// Triples that stand side by side in one of a store's three orders: those at the places from `first`
/// up to `end`, the latter not counted, in the tree of that order.
#[derive(Clone, Copy, Debug, PartialEq, Eq)]
pub struct Range {
    /// The order: 0 by subject, predicate and object, 1 by predicate, object and subject,
    /// 2 by object, subject and predicate.
    pub order: u8,
    /// The first place.
    pub first: u32,
    /// The place behind the last.
    pub end: u32,
}

/// The fault of a call that takes no memory as one of a call that does.
fn store_fault(fault: ReadFault) -> StoreFault
    ensures blocks { result ≡ StoreFault.Blocks → fault ≡ ReadFault.Blocks }
    ensures damaged { (block : ℕ) → result ≡ StoreFault.Damaged block → fault ≡ ReadFault.Damaged block }
    ensures memory { result ≡ StoreFault.Memory → ⊥ }
{
    match fault {
        ReadFault::Blocks => StoreFault::Blocks,
        ReadFault::Damaged { block } => StoreFault::Damaged { block },
    }
}

impl Range {
    /// How many triples there are.
    pub fn len(&self) -> u32
        requires { self.now.first ≤ self.now.end }
        ensures count { result ≡ self.now.end - self.now.first }
        ensures few { result < 2 ^ 32 }
    {
        self.end - self.first
    }

    /// The place in the range of a place in the order, or nothing where that is not in the range.
    fn place_at(&self, place: u32) -> Option<u32>
        ensures at { (k : ℕ) → result ≡ Some k → (self.now.first + k ≡ place) × (place < self.now.end) }
        ensures none { result ≡ None → self.now.first ≤ place → place < self.now.end → ⊥ }
    {
        if place < self.first {
            return None;
        }
        if place >= self.end {
            return None;
        }
        Some(place - self.first)
    }
}

impl<B: Blocks> Store<B> {
    /// What a place of a pattern wants.
    fn wanted_at(&mut self, alloc: Global, place: &Place) -> Result<Wanted, StoreFault>
        ensures kept { IsKept self.old self.new }
        ensures cost { HasRead self.old.device self.new.device (32 * (4 + (dict_of self.old.header).bytes / 4080)) }
        ensures few_reads { (image : List ℕ) → Tells self.old.device.image image
            → self.new.device.reads ≤ self.old.device.reads + (25 * (4 + longest_record (dict_of self.old.header) image / 4080)) }
        ensures reads { (terms : List Terms) (ids : List Ids) → IsShown self.old terms ids
            → self.new.device.reads ≤ self.old.device.reads + 25 * (4 + self.old.header.longest / 4080) }
        ensures failed { result ≡ Err StoreFault.Blocks → Rose self.old.device.faults self.new.device.faults }
        ensures bound { IfOk result (λ w. is_bound w ≡ is_some (filled finmap.empty (position_of place.now))) }
        ensures found { (terms : List Terms) (ids : List Ids) (k : ℕ) → IsShown self.old terms ids → k < length terms
            → IfOk result (λ w. admits w k ≡ fits (filled finmap.empty (position_of place.now)) (term_numbered terms k)) }
        ensures damaged { (image : List ℕ) (block : ℕ) → Tells self.old.device.image image
            → result ≡ Err (StoreFault.Damaged block) → IsDamaged self.old.header image block }
        ensures whole { (terms : List Terms) (ids : List Ids) (block : ℕ) → IsShown self.old terms ids
            → result ≡ Err (StoreFault.Damaged block) → ⊥ }
    {
        match place {
            Place::Term(term) => Ok(Wanted::of(self.id_of(alloc, term)?)),
            Place::Var(_) => Ok(Wanted::Any),
            Place::Blank(_) => Ok(Wanted::Any),
        }
    }

    /// The ranks that a pattern wants.
    fn asked_of(&mut self, alloc: Global, p: &Pattern) -> Result<Asked, StoreFault>
        ensures kept { IsKept self.old self.new }
        ensures cost { HasRead self.old.device self.new.device (96 * (4 + (dict_of self.old.header).bytes / 4080)) }
        ensures few_reads { (image : List ℕ) → Tells self.old.device.image image
            → self.new.device.reads ≤ self.old.device.reads + (75 * (4 + longest_record (dict_of self.old.header) image / 4080)) }
        ensures reads { (terms : List Terms) (ids : List Ids) → IsShown self.old terms ids
            → self.new.device.reads ≤ self.old.device.reads + 75 * (4 + self.old.header.longest / 4080) }
        ensures failed { result ≡ Err StoreFault.Blocks → Rose self.old.device.faults self.new.device.faults }
        ensures index { IfOk result (λ asked. index_for asked ≡ index_of (pattern_of p.now) finmap.empty) }
        ensures found { (terms : List Terms) (ids : List Ids) (i : Ids) → IsShown self.old terms ids → IsBelow (length terms) i
            → IfOk result (λ asked. asks_for asked i ≡ agrees (pattern_of p.now) finmap.empty (decode terms i)) }
        ensures damaged { (image : List ℕ) (block : ℕ) → Tells self.old.device.image image
            → result ≡ Err (StoreFault.Damaged block) → IsDamaged self.old.header image block }
        ensures whole { (terms : List Terms) (ids : List Ids) (block : ℕ) → IsShown self.old terms ids
            → result ≡ Err (StoreFault.Damaged block) → ⊥ }
    {
        let subject = self.wanted_at(alloc, &p.subject)?;
        let predicate = self.wanted_at(alloc, &p.predicate)?;
        let object = self.wanted_at(alloc, &p.object)?;
        Ok(Asked {
            s: subject,
            p: predicate,
            o: object,
        })
    }

    /// The range of the triples that are asked for: those that agree with a pattern under a row, where
    /// the ranks are those of its terms and of the values of its names. No memory is taken.
    ///
    /// `Blocks` comes only where a read failed, and `Damaged` only where in format 2 the tag of that
    /// block does not agree. At most 6 blocks are read.
    pub fn range_by(&mut self, asked: &Asked) -> Result<Range, ReadFault>
        ensures kept { IsKept self.old self.new }
        ensures cost { HasRead self.old.device self.new.device 6 }
        ensures failed { result ≡ Err ReadFault.Blocks → Rose self.old.device.faults self.new.device.faults }
        ensures within { IfOk result (IsInStore self.old) }
        ensures index { IfOk result (λ r. index_numbered r.order ≡ index_for asked.now) }
        ensures stretch { (terms : List Terms) (ids : List Ids) → IsShown self.old terms ids
            → IfOk result (IsKeyStretch (asks_for asked.now) ids) }
        ensures found { (L : List Triples) (terms : List Terms) (ids : List Ids) (p : Patterns) (row : Row) → IsTable L terms ids
            → IsShown self.old terms ids → IsAskedBy terms p row asked.now → IfOk result (IsRangeOf L terms ids p row) }
        ensures damaged { (image : List ℕ) (block : ℕ) → Tells self.old.device.image image
            → result ≡ Err (ReadFault.Damaged block) → IsDamaged self.old.header image block }
        ensures whole { (terms : List Terms) (ids : List Ids) (block : ℕ) → IsShown self.old terms ids
            → result ≡ Err (ReadFault.Damaged block) → ⊥ }
    {
        let order = asked.order();
        match asked.prefix() {
            None => Ok(Range {
                order,
                first: 0,
                end: 0,
            }),
            Some(prefix) => {
                let (first, end) = self.range(order, &prefix)?;
                Ok(Range { order, first, end })
            }
        }
    }

    /// The range of the triples that agree with the terms of a pattern: empty where the data lack
    /// one of them. Variables and blank nodes ask for nothing here, not even that one of them that
    /// stands twice has one value. Memory is taken while the ranks of the terms are looked for.
    ///
    /// `Damaged` names the block of a broken number or record of the dictionary that the search for
    /// a term came upon, or a block whose tag does not agree. `Blocks` comes only where a read failed.
    pub fn range_of(&mut self, alloc: Global, p: &Pattern) -> Result<Range, StoreFault>
        ensures kept { IsKept self.old self.new }
        ensures index { IfOk result (λ r. index_numbered r.order ≡ index_of (pattern_of p.now) finmap.empty) }
        ensures within { IfOk result (IsInStore self.old) }
        ensures cost { HasRead self.old.device self.new.device (96 * (4 + (dict_of self.old.header).bytes / 4080) + 6) }
        ensures few_reads { (image : List ℕ) → Tells self.old.device.image image
            → self.new.device.reads ≤ self.old.device.reads + (75 * (4 + longest_record (dict_of self.old.header) image / 4080) + 6) }
        ensures reads { (terms : List Terms) (ids : List Ids) → IsShown self.old terms ids
            → self.new.device.reads ≤ self.old.device.reads + (75 * (4 + self.old.header.longest / 4080) + 6) }
        ensures failed { result ≡ Err StoreFault.Blocks → Rose self.old.device.faults self.new.device.faults }
        ensures found { (L : List Triples) (terms : List Terms) (ids : List Ids) → IsTable L terms ids → IsShown self.old terms ids
            → IfOk result (IsRangeOf L terms ids (pattern_of p.now) finmap.empty) }
        ensures damaged { (image : List ℕ) (block : ℕ) → Tells self.old.device.image image
            → result ≡ Err (StoreFault.Damaged block) → IsDamaged self.old.header image block }
        ensures whole { (terms : List Terms) (ids : List Ids) (block : ℕ) → IsShown self.old terms ids
            → result ≡ Err (StoreFault.Damaged block) → ⊥ }
    {
        let asked = self.asked_of(alloc, p)?;
        match self.range_by(&asked) {
            Ok(range) => Ok(range),
            Err(fault) => Err(store_fault(fault)),
        }
    }

    /// How many triples agree with the terms of a pattern: none where the data lack one of them.
    /// Memory is taken while the ranks of the terms are looked for.
    ///
    /// `Damaged` and `Blocks` come as `range_of` has them.
    pub fn count(&mut self, alloc: Global, p: &Pattern) -> Result<u32, StoreFault>
        ensures kept { IsKept self.old self.new }
        ensures cost { HasRead self.old.device self.new.device (96 * (4 + (dict_of self.old.header).bytes / 4080) + 6) }
        ensures few_reads { (image : List ℕ) → Tells self.old.device.image image
            → self.new.device.reads ≤ self.old.device.reads + (75 * (4 + longest_record (dict_of self.old.header) image / 4080) + 6) }
        ensures reads { (terms : List Terms) (ids : List Ids) → IsShown self.old terms ids
            → self.new.device.reads ≤ self.old.device.reads + (75 * (4 + self.old.header.longest / 4080) + 6) }
        ensures within { IfOk result (λ n. n ≤ self.old.header.triples) }
        ensures failed { result ≡ Err StoreFault.Blocks → Rose self.old.device.faults self.new.device.faults }
        ensures found { (L : List Triples) (terms : List Terms) (ids : List Ids) → IsTable L terms ids → IsShown self.old terms ids
            → IfOk result (λ n. n ≡ length (agreeing L (pattern_of p.now) finmap.empty)) }
        ensures damaged { (image : List ℕ) (block : ℕ) → Tells self.old.device.image image
            → result ≡ Err (StoreFault.Damaged block) → IsDamaged self.old.header image block }
        ensures whole { (terms : List Terms) (ids : List Ids) (block : ℕ) → IsShown self.old terms ids
            → result ≡ Err (StoreFault.Damaged block) → ⊥ }
    {
        let range = self.range_of(alloc, p)?;
        Ok(range.len())
    }

    /// The triple at a place of a range, counted from 0, each term by its rank. One block is read.
    ///
    /// `Blocks` comes only where a read failed, `Damaged` as `entry` has it, and `Memory` never.
    pub fn triple(&mut self, range: &Range, place: u32) -> Result<IdTriple, StoreFault>
        requires range { IsInStore self.old range.now }
        requires within { place < range.now.end - range.now.first }
        ensures kept { IsKept self.old self.new }
        ensures cost { HasRead self.old.device self.new.device 1 }
        ensures failed { result ≡ Err StoreFault.Blocks → Rose self.old.device.faults self.new.device.faults }
        ensures own { result ≡ Err StoreFault.Memory → ⊥ }
        ensures named { IfOk result (IsBelow self.old.header.terms) }
        ensures read { (image : List ℕ) → Tells self.old.device.image image
            → ReadsImage (λ t. t) result (stored_triple self.old.header range.now.order (range.now.first + place) image) }
        ensures damaged { (image : List ℕ) (block : ℕ) → Tells self.old.device.image image
            → result ≡ Err (StoreFault.Damaged block) → IsDamaged self.old.header image block }
        ensures found { (terms : List Terms) (ids : List Ids) → IsShown self.old terms ids
            → IfOk result (λ t. slice_get (triples_at ids range.now) place ≡ Some t) }
        ensures whole { (terms : List Terms) (ids : List Ids) (block : ℕ) → IsShown self.old terms ids
            → result ≡ Err (StoreFault.Damaged block) → ⊥ }
    {
        match self.entry(range.order, range.first + place) {
            Ok(triple) => Ok(triple),
            Err(fault) => Err(store_fault(fault)),
        }
    }

    /// The place of a triple in a range, counted from 0, or `None` where it is not there: a search
    /// in the range's tree. At most 4 blocks are read.
    ///
    /// `Blocks` comes only where a read failed, `Damaged` only where in format 2 the tag of that
    /// block does not agree, and `Memory` never.
    pub fn place_of(&mut self, range: &Range, t: &IdTriple) -> Result<Option<u32>, StoreFault>
        requires range { IsInStore self.old range.now }
        ensures kept { IsKept self.old self.new }
        ensures cost { HasRead self.old.device self.new.device 4 }
        ensures within { (place : ℕ) → result ≡ Ok (Some place) → place < range.now.end - range.now.first }
        ensures failed { result ≡ Err StoreFault.Blocks → Rose self.old.device.faults self.new.device.faults }
        ensures there { (image : List ℕ) (place : ℕ) → Tells self.old.device.image image → result ≡ Ok (Some place)
            → HasEntry self.old.header range.now.order t.now image (range.now.first + place) }
        ensures found { (terms : List Terms) (ids : List Ids) → IsShown self.old terms ids
            → IfOk result (IsFound (triples_at ids range.now) t.now) }
        ensures damaged { (image : List ℕ) (block : ℕ) → Tells self.old.device.image image
            → result ≡ Err (StoreFault.Damaged block) → IsDamaged self.old.header image block }
        ensures whole { (terms : List Terms) (ids : List Ids) (block : ℕ) → IsShown self.old terms ids
            → result ≡ Err (StoreFault.Damaged block) → ⊥ }
        ensures own { result ≡ Err StoreFault.Memory → ⊥ }
    {
        match self.place_in(range.order, t) {
            Ok(found) => match found {
                Some(place) => Ok(range.place_at(place)),
                None => Ok(None),
            },
            Err(fault) => Err(store_fault(fault)),
        }
    }
}
