//! What the members of a document of rules say: of which locale another is the parent, how long the
//! chains of parents are, and whether a value is a text.
#![tactic(auto)]

mod chains;
mod long_names;
mod parent_rows;
mod texts;

pub use chains::{KnownChains, goes_on};
pub use long_names::is_long_name;
pub use parent_rows::Parents;
pub use texts::{TextMember, text_member};
