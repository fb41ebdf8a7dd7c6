//! What a packed pattern says with its arguments, read in place.
#![tactic(auto)]

mod branches;
mod by_place;
mod formatting;
mod parts;
mod saying;
mod sight;
mod steps;

pub use by_place::{PlacedValues, argument_names};
pub use formatting::{
    format_by_place, format_packed, format_prepared, say_by_place, say_packed, say_prepared,
};
