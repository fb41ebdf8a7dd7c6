//! The commands of the program `plurals`, over any reader and writer.
#![tactic(auto)]

mod answer;
pub mod arguments;
pub mod run;

pub use plural_queries::RunError;
