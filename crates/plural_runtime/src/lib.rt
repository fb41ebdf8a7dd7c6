//! Plural rules as packed bytes: their relations, their tree and their text, and when they are
//! true.
#![tactic(auto)]

mod display;
mod error;
mod first_byte;
mod from_bytes;
mod from_text;
mod item;
mod kinds;
pub mod laws;
mod pack;
mod range;
mod ranges;
mod relation;
mod relations;
mod resolver;
mod rule;
mod steps;
mod text_bytes;
mod tree_bytes;
mod unpack;

pub use error::{RuleBytesError, RuleError};
pub use first_byte::AndOrPolarityOperand;
pub use kinds::{AndOr, Operand, Polarity};
pub use range::RangeOrValue;
pub use relation::{Relation, RelationULE};
pub use relations::Relations;
pub use resolver::{test_rule, test_rule_counted};
pub use rule::Rule;
pub use steps::Steps;
