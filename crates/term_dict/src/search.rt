// Ranks by terms: a search in halves.
ghost use Rattle.std.specs.Prelude.{◌≡◌, ◌<◌, ◌≤◌, ◌+◌, ◌*◌, ◌/◌, ℕ, List, Some, None, IfOk};
ghost use Rattle.sage_outside.specs.Causes.{Rose};
ghost use Rattle.sage_outside.specs.Blocks.{HasRead, Tells};
ghost use Rattle.term_core.specs.declared.term.Term.{Term};
ghost use Rattle.term_dict.specs.Layout.{stored_term, longest_record, DictLies, DictStands};
ghost use Rattle.term_dict.specs.Ranks.{HoldsTerms, IsRank, IsGap};

use crate::Dict;
use sage_outside::{Blocks, StoreFault};
use std::alloc::Global;
use std::cmp::Ordering;
use term_core::Term;

impl Dict {
    /// The rank of the term, by a search in halves.
    fn rank_of<B: Blocks>(
        &self,
        alloc: Global,
        blocks: &mut B,
        t: &Term,
    ) -> Result<Option<u32>, StoreFault>
        requires stands { DictStands self.now (B.device blocks.old).count }
        ensures read { HasRead (B.device blocks.old) (B.device blocks.new) (32 * (4 + self.now.bytes / 4080)) }
        ensures few_reads { (image : List ℕ) → Tells (B.device blocks.old).image image → self.now.terms ≤ 12582909
            → (B.device blocks.new).reads ≤ (B.device blocks.old).reads + 25 * (4 + longest_record self.now image / 4080) }
        ensures failed { result ≡ Err StoreFault.Blocks
            → Rose (B.device blocks.old).faults (B.device blocks.new).faults }
        ensures found { (ts : List Term) (image : List ℕ) → Tells (B.device blocks.old).image image
            → HoldsTerms self.now ts image → IfOk result (IsRank ts t.now) }
        ensures there { (image : List ℕ) (k : ℕ) → Tells (B.device blocks.old).image image
            → result ≡ Ok (Some k) → (k < self.now.terms) × (stored_term self.now k image ≡ Ok t.now) }
        ensures absent { (image : List ℕ) → Tells (B.device blocks.old).image image
            → result ≡ Ok None → IsGap self.now t.now image }
        ensures damaged { (image : List ℕ) (block : ℕ) → Tells (B.device blocks.old).image image
            → result ≡ Err (StoreFault.Damaged block)
            → (k : ℕ) × (k < self.now.terms) × (stored_term self.now k image ≡ Err block) }
    {
        let mut low = 0u32;
        let mut high = self.terms;
        for step in 0u32..32 {
            if low >= high {
                return Ok(None);
            }
            let middle = low + (high - low) / 2;
            match self.order_at(alloc, blocks, middle, t) {
                Err(fault) => return Err(fault),
                Ok(order) => match order {
                    Ordering::Less => low = middle + 1,
                    Ordering::Equal => return Ok(Some(middle)),
                    Ordering::Greater => high = middle,
                },
            }
        }
        Ok(None)
    }

    /// The rank of the term, or `None` where it is not there. Memory is taken for the bytes of one
    /// record at a time; none is decoded.
    ///
    /// `Damaged` names the block in which a broken number or record begins that the search came
    /// upon, or a block of them whose tag does not agree. `Blocks` comes only where a read failed. Each block of a record that the search comes
    /// upon is read once, and what is behind its first two only where they do not decide.
    pub fn id_of<B: Blocks>(
        &self,
        alloc: Global,
        blocks: &mut B,
        t: &Term,
    ) -> Result<Option<u32>, StoreFault>
        requires lies { DictLies self.now (B.device blocks.old).count }
        ensures read { HasRead (B.device blocks.old) (B.device blocks.new) (32 * (4 + self.now.bytes / 4080)) }
        ensures few_reads { (image : List ℕ) → Tells (B.device blocks.old).image image → self.now.terms ≤ 12582909
            → (B.device blocks.new).reads ≤ (B.device blocks.old).reads + 25 * (4 + longest_record self.now image / 4080) }
        ensures failed { result ≡ Err StoreFault.Blocks
            → Rose (B.device blocks.old).faults (B.device blocks.new).faults }
        ensures found { (ts : List Term) (image : List ℕ) → Tells (B.device blocks.old).image image
            → HoldsTerms self.now ts image → IfOk result (IsRank ts t.now) }
        ensures there { (image : List ℕ) (k : ℕ) → Tells (B.device blocks.old).image image
            → result ≡ Ok (Some k) → (k < self.now.terms) × (stored_term self.now k image ≡ Ok t.now) }
        ensures absent { (image : List ℕ) → Tells (B.device blocks.old).image image
            → result ≡ Ok None → IsGap self.now t.now image }
        ensures damaged { (image : List ℕ) (block : ℕ) → Tells (B.device blocks.old).image image
            → result ≡ Err (StoreFault.Damaged block)
            → (k : ℕ) × (k < self.now.terms) × (stored_term self.now k image ≡ Err block) }
        ensures whole { (ts : List Term) (image : List ℕ) (block : ℕ) → Tells (B.device blocks.old).image image
            → HoldsTerms self.now ts image → result ≡ Err (StoreFault.Damaged block) → ⊥ }
    {
        self.rank_of(alloc, blocks, t)
    }
}
