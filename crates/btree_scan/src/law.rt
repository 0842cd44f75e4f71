// What leads from the blocks of a tree, as they are written, to the keys that are read from them.
ghost use Rattle.std.specs.Prelude.{List, ℕ};
ghost use Rattle.term_core.specs.declared.pattern.IdTriple.{IdTriple};
ghost use Rattle.btree_scan.specs.declared.tree.Tree.{Tree};
ghost use Rattle.btree_scan.specs.Levels.{Lists};
ghost use Rattle.btree_scan.specs.Written.{IsWritten, IsTreeIn};

/// An image in whose blocks the levels of a list stand, with tags that agree, lists its keys.
pub fn written_trees_are_read()
    ensures { (tree : Tree) (es : List IdTriple) (image : List ℕ) → IsWritten tree es image → Lists tree es image }
{}

/// The blocks of a tree, as they are written, hold its levels.
pub fn trees_are_written()
    ensures { (tree : Tree) (es : List IdTriple) (image : List ℕ) → IsTreeIn tree es image → IsWritten tree es image }
{}
