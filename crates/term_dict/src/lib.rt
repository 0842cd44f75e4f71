//! A dictionary of terms over blocks: each term by its rank in the order, and the rank of a term.
#![tactic(auto)]

mod comparison;
mod dict;
mod dict_image;
mod front;
mod law;
mod order;
mod record;
mod search;

pub use dict::Dict;
pub use dict_image::{
    DictImage, Extent, are_short, build, extent_of, lent_are_short, push_places, push_records,
};
pub use law::{laid_out_images_hold, places_are_ranks, records_are_read};
