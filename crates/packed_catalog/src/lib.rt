//! Values by key, packed as a block of bytes that is read in place.
#![tactic(auto)]

mod catalog;
mod entry;
mod error;
mod finding;
pub mod laws;
mod numbers;
mod packing;
mod reading;

pub use catalog::PackedCatalog;
pub use entry::CatalogEntry;
pub use error::{CatalogError, PackCatalogError};
pub use finding::find_value;
pub use packing::pack;
