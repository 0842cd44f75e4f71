//! Laws of the values of expressions. Each is the contract of a function that does nothing.

ghost use Rattle.sparql_value.specs.Laws.{NamesDecide, NamesAreEnough, OrDecides, AndDecides, InDecides};

/// The value of an expression depends on the variables alone that it names outside aggregates: on
/// two solutions that agree on these it is the same, and so it is on the solution that binds no others.
pub fn names_decide()
    ensures alike { NamesDecide }
    ensures enough { NamesAreEnough }
{}

/// What decides `||`, `&&` and `IN` (SPARQL 1.1, sections 17.2 and 17.4.1.9), however many sides there are and wherever among them
/// an error stands: one side that is true decides `||`, one that is false decides `&&`, and one `=` that is true decides `IN`.
pub fn sides_decide()
    ensures by_or { OrDecides }
    ensures by_and { AndDecides }
    ensures by_in { InDecides }
{}
