//! Laws of the texts in which parts of a query travel to servers: each reads back as its part, whose operators keep the rules on
//! scopes (SPARQL 1.1, sections 18.2 and 19.8). Each is the contract of a function that does nothing.
#![tactic(auto)]

pub mod law;
