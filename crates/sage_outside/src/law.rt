//! Laws of the definitions. Each is the contract of a function that does nothing.

ghost use Rattle.std.specs.Prelude.{◌↔◌, ◌+◌, ℕ};
ghost use Rattle.sage_outside.specs.Causes.{Rose, RoseBy};

/// A count that rises in each of several calls rises by their number over all of them.
pub fn rises_add()
    ensures one { (before now : ℕ) → Rose before now ↔ RoseBy 1 before now }
    ensures adds { (m n before middle now : ℕ) → RoseBy m before middle → RoseBy n middle now
        → RoseBy (m + n) before now }
{}
