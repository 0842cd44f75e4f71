//! The law of suspended plans. Its function does nothing when it runs: its contract is the law.

ghost use Rattle.plan_bytes.specs.Laws.{SavedAreRead};

/// What `save` writes of a state of a plan's shape is refused by `parse` for no cause but want of memory,
/// and is the spelling of no other state of that shape.
pub fn saved_are_read()
    ensures { SavedAreRead }
{}
