// What holds of a store after a call.
ghost use Rattle.std.specs.Prelude.{List};
ghost use Rattle.term_core.specs.declared.term.Triple.{Triple};
ghost use Rattle.triple_store.specs.Stores.{View, IsKept, IsStoreOf};

/// A store of data is one of the same data after any call, also after one that failed.
pub fn stores_stay()
    ensures { (L : List Triple) (before now : View) → IsKept before now → IsStoreOf before L → IsStoreOf now L }
{}
