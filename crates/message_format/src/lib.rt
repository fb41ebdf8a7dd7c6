//! What a pattern of ICU's MessageFormat says with its arguments.
#![tactic(auto)]

mod arguments;
mod branches;
mod difference;
mod error;
mod formatting;
pub mod laws;
mod lists;
mod numbers;
mod offsets;
mod plain;
mod saying;
mod shown;
mod sink;
mod source;
mod steps;
mod text_rules;
mod walks;

pub use arguments::{Argument, Arguments, Value};
pub use branches::has_branch_of_value;
pub use error::{ArgumentFault, FormatError};
pub use formatting::format;
pub use plain::{Plain, Unread};
pub use saying::{MessageSteps, Next, say, step_of};
pub use shown::Shown;
pub use sink::{Sink, TextLength};
pub use source::{Chooser, Found, MessageParts, Seen};
pub use steps::{Rules, shown_value};
pub use text_rules::TextRules;
