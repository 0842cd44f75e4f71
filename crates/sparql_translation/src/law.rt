//! Laws of splits. Each is the contract of a function that does nothing.

ghost use Rattle.sparql_translation.specs.SplitLaws.{SplitsKeepSolutions};

/// On all data the solutions of a query's parts, put into its tree, are the solutions of its algebra,
/// as equal lists (SPARQL 1.1, section 18.6).
pub fn splits_keep_solutions()
    ensures { SplitsKeepSolutions }
{}
