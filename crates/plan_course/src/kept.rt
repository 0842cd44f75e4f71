//! The names that a projection keeps.

ghost use Rattle.std.specs.Prelude.{◌≡◌, ◌<◌, length, slice_get, Some, ℕ, IfOk};
ghost use Rattle.plan_course.specs.Meanings.{AreMarked};

use std::alloc::Global;
use term_core::{Items, Memory};

/// For each of so many numbers whether it is one of these.
pub fn marks_of(alloc: Global, width: usize, slots: &[usize]) -> Result<Items<bool>, Memory>
    requires below { (k : ℕ) (slot : ℕ) → slice_get slots.now k ≡ Some slot → slot < width }
    ensures { IfOk result (λ kept. AreMarked slots.now kept) }
{
    let mut kept = vec![in alloc; false; width]?;
    for slot in slots {
        kept[*slot] = true;
    }
    Ok(Items::from_vec(kept))
}
