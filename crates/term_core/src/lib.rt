//! RDF terms, triples, triple patterns and solution rows, with one total order on terms.
#![tactic(auto)]

mod characters;
mod copies;
mod data_law;
mod datatypes;
mod items;
mod law;
mod pattern;
mod row;
mod row_builder;
mod term;
mod text;
mod token;

pub use characters::{has_scheme, is_iri, is_pn, is_pn_base, is_pn_u, is_scheme, unescaped};
pub use copies::TryCopy;
pub use data_law::{data_are_sets, listing_is, range_is, ranks_are_places};
pub use datatypes::{RDF_LANG_STRING, XSD_BOOLEAN, XSD_DECIMAL, XSD_INTEGER, XSD_STRING};
pub use items::Items;
pub use law::{
    bags_are_rearrangements, bytes_order_is_total, distinct_keeps_each_once, equality_is_exact,
    id_order_is_total, joins_are_bags, merge_is_union, restriction_keeps_values,
};
pub use pattern::{IdTriple, Pattern, Place};
pub use row::Row;
pub use row_builder::RowBuilder;
pub use term::{NotATriple, Term, Triple, check_triple, compare, compare_is_total, size};
pub use text::{Memory, Text, TextFault};
pub use token::{Kind, Token};
