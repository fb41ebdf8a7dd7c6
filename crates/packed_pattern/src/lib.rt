//! Patterns of messages, packed as blocks of bytes that are read in place.
#![tactic(auto)]

mod ahead;
mod block;
mod error;
pub mod laws;
mod packing;
mod parts;
mod placed;
mod walk;

pub use block::PackedPattern;
pub use error::{BlockError, PackPatternError};
pub use packing::pack;
pub use placed::PlacedPart;
