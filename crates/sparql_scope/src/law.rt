//! Laws of the rules on scope. Each is the contract of a function that does nothing.

ghost use Rattle.std.specs.Prelude.{◌≡◌, []};
ghost use Rattle.sparql_scope.specs.Rules.{AreFresh, Keeps, labels_of_group};
ghost use Rattle.sparql_tree.specs.Breaches.{breaches};
ghost use Rattle.sparql_tree.specs.Groups.{Query};

/// In a query without a breach no variable of a BIND is in scope of the parts before it in its group, and
/// the variables of each table differ (SPARQL 1.1, sections 18.2.1 and 10.2).
pub fn variables_are_new()
    ensures { (q : Query) → breaches q ≡ [] → Keeps q.body }
{}

/// In a query without a breach the labels of different basic graph patterns differ (SPARQL 1.1, section 19.6).
pub fn labels_are_apart()
    ensures { (q : Query) → breaches q ≡ [] → AreFresh [] (labels_of_group q.body) }
{}
