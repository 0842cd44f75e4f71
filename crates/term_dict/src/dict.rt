// Terms by their ranks.
ghost use Rattle.std.specs.Prelude.{◌≡◌, ◌<◌, ◌≤◌, ◌+◌, ◌-◌, ◌*◌, ◌/◌, ◌^◌, ◌↔◌, ℕ, List, Some, IsTrue, Err, IfOk, slice_get, length};
ghost use Rattle.std.specs.declared.cmp.Ordering.{Ordering};
ghost use Rattle.sage_outside.specs.Causes.{Rose};
ghost use Rattle.sage_outside.specs.Blocks.{HasRead, Tells};
ghost use Rattle.sage_outside.specs.Parts.{Reads};
ghost use Rattle.term_core.specs.declared.term.Term.{Term};
ghost use Rattle.sage_outside.specs.Areas.{part_at, block_of, touched};
ghost use Rattle.term_dict.specs.Layout.{place_area, record_area, pair_at, span_of, span_at, span_length, stored_term, or_blame, longest_record, DictLies, DictStands, ReadsImage};
ghost use Rattle.term_dict.specs.Ranks.{HoldsTerms};
ghost use Rattle.term_dict.specs.Records.{term_in};

use crate::record::{RecordFault, term_of};
use sage_outside::{Area, Blocks, ReadFault, StoreFault, block_of, read_area};
use std::alloc::Global;
use term_core::Term;

/// A dictionary in blocks: where each record begins, and the records, in two areas.
#[derive(Clone, Copy, Debug, PartialEq, Eq)]
pub struct Dict {
    /// The first block of the numbers that tell where records begin.
    pub places: u32,
    /// The first block of the records.
    pub records: u32,
    /// The number of terms.
    pub terms: u32,
    /// The bytes of the records' area.
    pub bytes: u64,
    /// The bytes that a block keeps, 4096 or 4080; those behind them belong to no area.
    pub payload: u32,
}

impl Dict {
    /// Whether the payload is 4096 or 4080 and both areas are within so many blocks.
    pub fn lies(&self, count: u32) -> bool
        ensures { IsTrue result ↔ DictLies self.now count }
    {
        if self.payload != 4096 && self.payload != 4080 {
            return false;
        }
        let payload = self.payload as u64;
        let all = count as u64 * payload;
        let places = self.places as u64 * payload + 8 * (self.terms as u64 + 1);
        let records = self.records as u64 * payload;
        places <= all && records <= all && self.bytes <= all - records
    }

    fn place_area(&self) -> Area
        ensures { result ≡ place_area self.now }
    {
        Area {
            first: self.places,
            payload: self.payload,
        }
    }

    pub(crate) fn record_area(&self) -> Area
        ensures { result ≡ record_area self.now }
    {
        Area {
            first: self.records,
            payload: self.payload,
        }
    }

    /// Numbers `k` and `k + 1`, as they stand in the blocks.
    fn place_pair<B: Blocks>(&self, blocks: &mut B, k: u32) -> Result<(u64, u64), ReadFault>
        requires stands { DictStands self.now (B.device blocks.old).count }
        requires within { k < self.now.terms }
        ensures read { HasRead (B.device blocks.old) (B.device blocks.new) 2 }
        ensures failed { result ≡ Err ReadFault.Blocks
            → Rose (B.device blocks.old).faults (B.device blocks.new).faults }
        ensures found { (image : List ℕ) → Tells (B.device blocks.old).image image
            → Reads (λ x. (x.0, x.1)) result (pair_at self.now k image) }
    {
        let mut bytes = [0; 16];
        let mut from = [0; 8];
        let mut end = [0; 8];
        read_area(blocks, &self.place_area(), 8 * k as u64, &mut bytes)?;
        from.copy_from_slice(&bytes[..8]);
        end.copy_from_slice(&bytes[8..]);
        Ok((u64::from_be_bytes(from), u64::from_be_bytes(end)))
    }

    /// The fault of number `k`.
    fn place_fault(&self, k: u64) -> StoreFault
        requires some { 0 < self.now.payload }
        requires fits { block_of (place_area self.now) (8 * k) ≤ u32.MAX }
        requires short { k < 2 ^ 33 }
        ensures { result ≡ StoreFault.Damaged (block_of (place_area self.now) (8 * k)) }
    {
        StoreFault::Damaged {
            block: block_of(&self.place_area(), 8 * k),
        }
    }

    /// The two numbers as the beginning and the end of record `k`, where they are well formed.
    fn risen(&self, k: u32, from: u64, end: u64) -> Result<(u64, u64), StoreFault>
        requires some { 0 < self.now.payload }
        requires fits { block_of (place_area self.now) (8 * (k + 1)) ≤ u32.MAX }
        ensures span { ReadsImage (λ x. (x.0, x.1)) result (span_of self.now k from end) }
        ensures rises { IfOk result (λ x. (x.0 ≤ x.1) × (x.1 ≤ self.now.bytes)) }
        ensures own { result ≡ Err StoreFault.Blocks → ⊥ }
    {
        let limit = if k == 0 { 0 } else { self.bytes };
        if limit < from {
            return Err(self.place_fault(k as u64));
        }
        if end <= from {
            Err(self.place_fault(k as u64 + 1))
        } else if self.bytes < end {
            Err(self.place_fault(k as u64 + 1))
        } else {
            Ok((from, end))
        }
    }

    /// Where record `k` begins and ends.
    pub(crate) fn span<B: Blocks>(&self, blocks: &mut B, k: u32) -> Result<(u64, u64), StoreFault>
        requires stands { DictStands self.now (B.device blocks.old).count }
        requires within { k < self.now.terms }
        ensures read { HasRead (B.device blocks.old) (B.device blocks.new) 2 }
        ensures failed { result ≡ Err StoreFault.Blocks
            → Rose (B.device blocks.old).faults (B.device blocks.new).faults }
        ensures found { (image : List ℕ) → Tells (B.device blocks.old).image image
            → ReadsImage (λ x. (x.0, x.1)) result (span_at self.now k image) }
        ensures rises { IfOk result (λ x. (x.0 ≤ x.1) × (x.1 ≤ self.now.bytes)) }
    {
        match self.place_pair(blocks, k) {
            Err(fault) => Err(StoreFault::from(fault)),
            Ok((from, end)) => self.risen(k, from, end),
        }
    }

    /// So many bytes of the records from the place `from` on.
    pub(crate) fn record<B: Blocks>(
        &self,
        alloc: Global,
        blocks: &mut B,
        from: u64,
        count: u64,
    ) -> Result<Vec<u8>, StoreFault>
        requires stands { DictStands self.now (B.device blocks.old).count }
        requires within { from + count ≤ self.now.bytes }
        ensures read { HasRead (B.device blocks.old) (B.device blocks.new) (touched self.now.payload from count) }
        ensures failed { result ≡ Err StoreFault.Blocks
            → Rose (B.device blocks.old).faults (B.device blocks.new).faults }
        ensures found { (image : List ℕ) → Tells (B.device blocks.old).image image
            → ReadsImage (λ x. x.items) result (part_at (record_area self.now) from count image) }
        ensures full { IfOk result (λ x. length x.items ≡ count) }
    {
        match vec![in alloc; 0u8; count as usize] {
            Err(_) => Err(StoreFault::Memory),
            Ok(bytes) => {
                let mut bytes = bytes;
                match read_area(blocks, &self.record_area(), from, bytes.as_mut_slice()) {
                    Err(fault) => Err(StoreFault::from(fault)),
                    Ok(()) => Ok(bytes),
                }
            }
        }
    }

    /// The term that the record with these bytes spells, which begins at the place `from`.
    pub(crate) fn decoded(&self, alloc: Global, bytes: &[u8], from: u64) -> Result<Term, StoreFault>
        requires some { 0 < self.now.payload }
        requires fits { block_of (record_area self.now) from ≤ u32.MAX }
        ensures read { ReadsImage (λ t. t) result (or_blame (block_of (record_area self.now) from) (term_in bytes.now)) }
        ensures own { result ≡ Err StoreFault.Blocks → ⊥ }
    {
        match term_of(alloc, bytes) {
            Ok(term) => Ok(term),
            Err(RecordFault::Memory) => Err(StoreFault::Memory),
            Err(RecordFault::Form) => Err(StoreFault::Damaged {
                block: block_of(&self.record_area(), from),
            }),
        }
    }

    /// The term of record `k`.
    fn term_of_record<B: Blocks>(
        &self,
        alloc: Global,
        blocks: &mut B,
        k: u32,
    ) -> Result<Term, StoreFault>
        requires stands { DictStands self.now (B.device blocks.old).count }
        requires within { k < self.now.terms }
        ensures read { HasRead (B.device blocks.old) (B.device blocks.new) (4 + self.now.bytes / 4080) }
        ensures few_reads { (image : List ℕ) → Tells (B.device blocks.old).image image
            → (B.device blocks.new).reads ≤ (B.device blocks.old).reads + (4 + span_length (span_at self.now k image) / 4080) }
        ensures failed { result ≡ Err StoreFault.Blocks
            → Rose (B.device blocks.old).faults (B.device blocks.new).faults }
        ensures found { (image : List ℕ) → Tells (B.device blocks.old).image image
            → ReadsImage (λ t. t) result (stored_term self.now k image) }
    {
        let (from, end) = self.span(blocks, k)?;
        let bytes = self.record(alloc, blocks, from, end - from)?;
        self.decoded(alloc, bytes.as_slice(), from)
    }

    /// The term of that rank. Memory is taken for the record and for the term.
    ///
    /// `Damaged` comes exactly where the two numbers of the record or the record are not well
    /// formed, and names the block in which the broken one begins, or where the tag of a block that
    /// holds a part of them does not agree, and names that block. `Blocks` comes only where a
    /// read failed. At most two blocks are read for the numbers, and each block of the record once.
    pub fn term<B: Blocks>(
        &self,
        alloc: Global,
        blocks: &mut B,
        id: u32,
    ) -> Result<Term, StoreFault>
        requires lies { DictLies self.now (B.device blocks.old).count }
        requires within { id < self.now.terms }
        ensures read { HasRead (B.device blocks.old) (B.device blocks.new) (4 + self.now.bytes / 4080) }
        ensures few_reads { (image : List ℕ) → Tells (B.device blocks.old).image image
            → (B.device blocks.new).reads ≤ (B.device blocks.old).reads + (4 + longest_record self.now image / 4080) }
        ensures failed { result ≡ Err StoreFault.Blocks
            → Rose (B.device blocks.old).faults (B.device blocks.new).faults }
        ensures found { (image : List ℕ) → Tells (B.device blocks.old).image image
            → ReadsImage (λ t. t) result (stored_term self.now id image) }
        ensures held { (ts : List Term) (image : List ℕ) → Tells (B.device blocks.old).image image
            → HoldsTerms self.now ts image → IfOk result (λ t. slice_get ts id ≡ Some t) }
        ensures whole { (ts : List Term) (image : List ℕ) (block : ℕ) → Tells (B.device blocks.old).image image
            → HoldsTerms self.now ts image → result ≡ Err (StoreFault.Damaged block) → ⊥ }
    {
        self.term_of_record(alloc, blocks, id)
    }
}
