//! Messages by key: a packed catalogue whose values are packed patterns, read in place.
#![tactic(auto)]

mod catalog;
mod checking;
mod error;
pub mod laws;
mod packing;
mod text;

pub use catalog::MessageCatalog;
pub use error::{MessageCatalogError, PackMessagesError, SayError, TextFault};
pub use packing::pack;
pub use text::MessageText;
