//! Whether two texts of rules have the same tokens.
#![tactic(auto)]

mod same_tokens;

pub use same_tokens::has_tokens_of;
