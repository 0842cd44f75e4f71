// How the term of a record stands to a term.
ghost use Rattle.std.specs.Prelude.{◌≡◌, ◌<◌, ◌≤◌, ◌+◌, ◌-◌, ◌*◌, ◌/◌, ◌%◌, ℕ, List, Ok, length};
ghost use Rattle.sage_outside.specs.Causes.{Rose};
ghost use Rattle.sage_outside.specs.Blocks.{HasRead, Tells};
ghost use Rattle.sage_outside.specs.Areas.{part_at, touched, block_of};
ghost use Rattle.term_dict.specs.Layout.{record_area, or_blame, record_in, raw_record_in, stored_term, raw_at, span_at, span_length, DictStands, ReadsImage};
ghost use Rattle.term_dict.specs.Ranks.{Compares};
ghost use Rattle.term_dict.specs.Records.{term_in, raw_in};

use crate::Dict;
use crate::comparison::order_of_record;
use crate::front::order_of_front;
use sage_outside::{Blocks, StoreFault, block_of};
use std::alloc::Global;
use std::cmp::Ordering;
use term_core::Term;

impl Dict {
    /// The record of which `front` was read, with the bytes behind it.
    fn record_behind<B: Blocks>(
        &self,
        alloc: Global,
        blocks: &mut B,
        front: Vec<u8>,
        from: u64,
        count: u64,
    ) -> Result<Vec<u8>, StoreFault>
        requires stands { DictStands self.now (B.device blocks.old).count }
        requires front { length front.items ≡ 2 * self.now.payload - from % self.now.payload }
        requires behind { length front.items < count }
        requires within { from + count ≤ self.now.bytes }
        ensures read { HasRead (B.device blocks.old) (B.device blocks.new)
            (touched self.now.payload (from + length front.items) (count - length front.items)) }
        ensures failed { result ≡ Err StoreFault.Blocks
            → Rose (B.device blocks.old).faults (B.device blocks.new).faults }
        ensures found { (image : List ℕ) → Tells (B.device blocks.old).image image
            → part_at (record_area self.now) from (length front.items) image ≡ Ok front.items
            → ReadsImage (λ x. x.items) result (part_at (record_area self.now) from count image) }
    {
        let near = front.len() as u64;
        let rest = self.record(alloc, blocks, from + near, count - near)?;
        let mut bytes = front;
        match bytes.extend_from_slice(&rest) {
            Ok(()) => Ok(bytes),
            Err(_) => Err(StoreFault::Memory),
        }
    }

    /// How the texts that the record with these bytes spells stand to `t`. The record begins at the
    /// place `from`. Nothing is decoded, and no memory taken.
    fn order_in(&self, bytes: &[u8], from: u64, t: &Term) -> Result<Ordering, StoreFault>
        requires some { 0 < self.now.payload }
        requires fits { block_of (record_area self.now) from ≤ u32.MAX }
        ensures found { Compares t.now result (or_blame (block_of (record_area self.now) from) (raw_in bytes.now))
            (or_blame (block_of (record_area self.now) from) (term_in bytes.now)) }
        ensures own { result ≡ Err StoreFault.Blocks → ⊥ }
    {
        match order_of_record(bytes, t) {
            Some(order) => Ok(order),
            None => Err(StoreFault::Damaged {
                block: block_of(&self.record_area(), from),
            }),
        }
    }

    /// How the term of the record of which `front` was read stands to `t`.
    fn order_behind<B: Blocks>(
        &self,
        alloc: Global,
        blocks: &mut B,
        front: Vec<u8>,
        from: u64,
        count: u64,
        t: &Term,
    ) -> Result<Ordering, StoreFault>
        requires stands { DictStands self.now (B.device blocks.old).count }
        requires front { length front.items ≡ 2 * self.now.payload - from % self.now.payload }
        requires behind { length front.items < count }
        requires within { from + count ≤ self.now.bytes }
        ensures read { HasRead (B.device blocks.old) (B.device blocks.new)
            (touched self.now.payload (from + length front.items) (count - length front.items)) }
        ensures failed { result ≡ Err StoreFault.Blocks
            → Rose (B.device blocks.old).faults (B.device blocks.new).faults }
        ensures found { (image : List ℕ) → Tells (B.device blocks.old).image image
            → part_at (record_area self.now) from (length front.items) image ≡ Ok front.items
            → Compares t.now result (raw_record_in self.now (Ok (from, from + count)) image)
            (record_in self.now (Ok (from, from + count)) image) }
    {
        match order_of_front(front.as_slice(), t) {
            Some(order) => Ok(order),
            None => {
                let bytes = self.record_behind(alloc, blocks, front, from, count)?;
                self.order_in(bytes.as_slice(), from, t)
            }
        }
    }

    /// How the term of the record between those places stands to `t`. What is behind its first two
    /// blocks is read only where they do not decide it.
    fn order_in_span<B: Blocks>(
        &self,
        alloc: Global,
        blocks: &mut B,
        from: u64,
        end: u64,
        t: &Term,
    ) -> Result<Ordering, StoreFault>
        requires stands { DictStands self.now (B.device blocks.old).count }
        requires rises { from ≤ end }
        requires within { end ≤ self.now.bytes }
        ensures read { HasRead (B.device blocks.old) (B.device blocks.new) (2 + (end - from) / 4080) }
        ensures failed { result ≡ Err StoreFault.Blocks
            → Rose (B.device blocks.old).faults (B.device blocks.new).faults }
        ensures found { (image : List ℕ) → Tells (B.device blocks.old).image image
            → Compares t.now result (raw_record_in self.now (Ok (from, end)) image)
            (record_in self.now (Ok (from, end)) image) }
    {
        let payload = self.payload as u64;
        let near = (2 * payload - from % payload).min(end - from);
        let front = self.record(alloc, blocks, from, near)?;
        if near < end - from {
            self.order_behind(alloc, blocks, front, from, end - from, t)
        } else {
            self.order_in(front.as_slice(), from, t)
        }
    }

    /// How the term of record `k` stands to `t`.
    pub(crate) fn order_at<B: Blocks>(
        &self,
        alloc: Global,
        blocks: &mut B,
        k: u32,
        t: &Term,
    ) -> Result<Ordering, StoreFault>
        requires stands { DictStands self.now (B.device blocks.old).count }
        requires within { k < self.now.terms }
        ensures read { HasRead (B.device blocks.old) (B.device blocks.new) (4 + self.now.bytes / 4080) }
        ensures few_reads { (image : List ℕ) → Tells (B.device blocks.old).image image
            → (B.device blocks.new).reads ≤ (B.device blocks.old).reads + (4 + span_length (span_at self.now k image) / 4080) }
        ensures failed { result ≡ Err StoreFault.Blocks
            → Rose (B.device blocks.old).faults (B.device blocks.new).faults }
        ensures found { (image : List ℕ) → Tells (B.device blocks.old).image image
            → Compares t.now result (raw_at self.now k image) (stored_term self.now k image) }
    {
        let (from, end) = self.span(blocks, k)?;
        self.order_in_span(alloc, blocks, from, end, t)
    }
}
