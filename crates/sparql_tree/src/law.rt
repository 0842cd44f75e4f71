//! Laws of solutions. Each function does nothing when it runs: its contract is the law.
ghost use Rattle.sparql_tree.specs.Laws.{SolutionsAreExact, AnyOrder, OnePattern, DataAsSet, AreApart};

/// The full solutions of a basic graph pattern are the mappings of its variables and blank nodes
/// under which every triple pattern becomes a triple of the data, each once (SPARQL 1.1, 18.3.1).
pub fn solutions_are_exact()
    ensures exact { SolutionsAreExact }
{}

/// A basic graph pattern is a set of triple patterns (SPARQL 1.1, 18.1.6): neither their order
/// counts nor how often one of them is written.
pub fn any_order()
    ensures any_order { AnyOrder }
{}

/// The solutions of a basic graph pattern with one triple pattern more are the join of the
/// solutions of both (SPARQL 1.1, 18.5). Blank nodes join by their labels.
pub fn one_pattern()
    ensures joined { OnePattern }
{}

/// Data are a set of triples (RDF 1.1 Concepts, 3): two lists with the same members have the same
/// solutions, each equally often.
pub fn data_as_set()
    ensures same { DataAsSet }
{}

/// Names of variables and of blank nodes are apart: a variable's has no colon, a blank node's begins
/// with `_:` (SPARQL 1.1, 19.8, VARNAME and BLANK_NODE_LABEL).
pub fn names_are_apart()
    ensures apart { AreApart }
{}
