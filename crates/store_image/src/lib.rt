//! The bytes of a store file: a header, the dictionary of the data's terms, and their triples in three orders. The data in
//! memory, of which it is made: the terms in order, and the triples by the ranks of their terms.
#![tactic(auto)]

mod blocks;
mod building;
mod format;
mod header;
mod law;
mod limits;
mod orders;
mod slot;
mod table;
mod table_id;

pub use building::{image, image_of};
pub use header::{Header, HeaderFault};
pub use law::{equal_sets_give_equal_images, headers_are_alone};
pub use limits::have_short_terms;
pub use orders::{key_in, keys_by};
pub use table::Table;
pub use table_id::data_id;
