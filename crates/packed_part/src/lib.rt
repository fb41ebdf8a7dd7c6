//! Parts of patterns of messages, packed as items of bytes: their places and their order.
#![tactic(auto)]

mod item;
mod order;
mod place_bytes;
mod places;
mod source;

pub use item::{
    depth_in, is_item_with, is_packable, is_plural_in, offset_digits, part_in, piece_tag,
    place_count, places_in, selector_bytes, selector_in,
};
pub use order::first_misplaced;
pub use place_bytes::PlaceBytes;
pub use places::{is_item_before, places_of};
pub use source::PartSource;
