//! Notes on the conditions of a language's plural rules: what is never true in them, and what comes
//! too late.
#![tactic(auto)]

mod category_rule;
mod cause;
mod condition_causes;
mod earlier_rules;
mod empty_relation;
pub mod laws;
mod note;
mod notes;
mod own_numbers;
mod printed;

pub use cause::{Cause, PrintedRelation};
pub use condition_causes::causes_of;
pub use note::Note;
pub use notes::notes_of;
