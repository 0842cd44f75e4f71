//! Laws of data: their listings, the ranges of patterns, the numbers and the name. Each function does nothing when it
//! runs: its contract is the law.
ghost use Rattle.term_core.specs.DataLaws.{ListingsAre, RangesAre, RangesAreStretches, RanksArePlaces, RanksExact, DataAreSets};

/// A list of triples is the listing of the data by an index exactly where it stands in the index's
/// order, each triple once, and has the triples of the data.
pub fn listing_is()
    ensures listing { ListingsAre }
{}

/// A list of triples is the range of a pattern under a row exactly where it stands in the order of
/// the pattern's index, each triple once, and has the triples of the data that agree. In that index
/// they stand side by side, so two binary searches by `side` find where they begin and end.
pub fn range_is()
    ensures range { RangesAre }
    ensures stretch { RangesAreStretches }
{}

/// The numbers that stand for terms are their places in the sorted list of the data's terms, so that
/// terms and triples of the data are told apart by them.
pub fn ranks_are_places()
    ensures places { RanksArePlaces }
    ensures exact { RanksExact }
{}

/// Two lists of the same triples have the same numbers of terms, the same name, and the same range for
/// each pattern under each row.
pub fn data_are_sets()
    ensures same { DataAreSets }
{}
