//! Laws of plans. Each function does nothing when it runs: its contract is the law.
ghost use Rattle.plan_tree.specs.Laws.{EntriesExtend, TracesEnd, SomeSteps, RowsOfPattern, TracesOfSets, BagIsKept, PlanIsOne, PlansOfSets, RowsAnswer, PatternAnswers};

/// The entry of a triple has the row's values and those under which the pattern becomes the triple,
/// and nothing else; it has no row exactly where one name would get two values.
pub fn entries_extend()
    ensures extended { EntriesExtend }
{}

/// Every plan takes at least one step, and the last gives no row.
pub fn traces_end()
    ensures ends { TracesEnd }
    ensures steps { SomeSteps }
{}

/// Two lists of the same triples have the same trace, entry by entry.
pub fn traces_of_sets()
    ensures same { TracesOfSets }
{}

/// The rows of a plan of one triple pattern are those that the triples of its range make of the
/// empty row, in their order, each restricted to the names.
pub fn rows_of_pattern()
    ensures rows { RowsOfPattern }
{}

/// The plan that is made over data, by the counts of patterns and the names that they share, is one of
/// the algebra's plans, and the same over any list of the same triples.
pub fn plans_are_one()
    ensures plan { PlanIsOne }
    ensures alike { PlansOfSets }
{}

/// The rows of a plan are the solutions of its algebra, each equally often (SPARQL 1.1, 18.6), in
/// whatever order the patterns of each basic graph pattern are joined.
pub fn bag_is_kept()
    ensures bag { BagIsKept }
{}

/// The rows of a plan's whole trace answer the query (SPARQL 1.1, 18.5), over any list of the same
/// triples, repeats and all; `pattern` says so for one triple pattern.
pub fn rows_are_the_answer()
    ensures answer { RowsAnswer }
    ensures pattern { PatternAnswers }
{}
