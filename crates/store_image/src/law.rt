// What holds of store files.
ghost use Rattle.std.specs.Prelude.{◌≡◌, ℕ, List};
ghost use Rattle.term_core.specs.declared.term.Triple.{Triple};
ghost use Rattle.term_core.specs.Bags.{HaveSame};
ghost use Rattle.store_image.specs.declared.header.Header.{Header};
ghost use Rattle.store_image.specs.Header.{IsHeader};
ghost use Rattle.store_image.specs.Image.{IsImage};

/// Data with the same triples have the same image in a format, whatever the order in which they stand and
/// however often (RDF 1.1 Concepts, section 3: a graph is a set).
pub fn equal_sets_give_equal_images()
    ensures { (D E : List Triple) (format : ℕ) (x y : List ℕ) → HaveSame D E → IsImage D format x → IsImage E format y → x ≡ y }
{}

/// A block is at most one header.
pub fn headers_are_alone()
    ensures { (block : List ℕ) (count : ℕ) (g h : Header) → IsHeader block count g → IsHeader block count h → g ≡ h }
{}
