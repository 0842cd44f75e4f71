//! What matters in a group for the rules on scope.

use term_core::Text;

/// What matters in a group for the rules on scope (SPARQL 1.1, sections 10.2, 18.2.1 and 19.6).
#[derive(Drop)]
pub enum Mark {
    /// A basic graph pattern ends here, if one stands before.
    Edge,
    /// A label in a basic graph pattern.
    Label(Text),
    /// A variable of BIND or VALUES that is there already.
    Again(Text),
}
