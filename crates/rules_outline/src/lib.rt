//! What one locale's rules need of a document, without the others.
#![tactic(auto)]

mod outline;

pub use outline::{KeptRules, kept_rules};
