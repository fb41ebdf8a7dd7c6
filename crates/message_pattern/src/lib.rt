//! Patterns of messages, as ICU's MessageFormat writes them: read into a flat list of parts.
#![tactic(auto)]

mod branch;
mod error;
mod head;
pub mod laws;
mod part;
mod pattern;
mod print;
mod reader;
mod style;
mod styled;
mod styled_argument;
mod text;

pub use error::{FaultKind, PatternError};
pub use part::{ArgumentKind, Part, Piece, Selector};
pub use pattern::Pattern;
pub use reader::DEPTH_LIMIT;
pub use styled::StyledPattern;
pub use styled_argument::{SimpleFormat, StyledArgument};
