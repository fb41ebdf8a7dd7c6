//! What the words of the program `plurals` ask for, and what a document has for it.
#![tactic(auto)]

mod answer;
pub mod arguments;
mod category_command;
mod command;
mod condition;
mod document;
mod elements;
mod error;
mod integer;
mod line;
mod message_command;
mod number;
mod print_command;
mod query;
mod range_command;
mod select_command;
mod test_command;

pub use answer::text_of;
pub use document::{Document, document_for, json_text};
pub use error::RunError;
pub use query::{Lookup, Query, query_of};
pub use test_command::truth_line;
