//! Lists of byte items, packed one after another after a small header.
#![tactic(auto)]

mod cursor;
mod encode;
mod error;
mod items;
mod items_to_pack;
pub mod laws;
mod list;
mod passing;
mod starts;
mod writer;

pub use cursor::Cursor;
pub use error::{ListError, PackError};
pub use items::Items;
pub use items_to_pack::{ByteItem, ByteItems};
pub use list::PackedList;
pub use passing::ItemTest;
pub use writer::ListWriter;
