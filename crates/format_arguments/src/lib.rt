//! The arguments of texts, by the formats that gettext's flags name, and which of them is the number.
#![tactic(auto)]

mod argument;
mod braced;
mod bytes;
mod directive;
mod format;
mod front;
pub mod laws;
mod name;
mod number;
mod numbered;
mod printf;
mod reader;
mod same;
mod table;

pub use argument::{Argument, Arguments, Kind, Name};
pub use format::Format;
pub use number::number_of;
pub use reader::arguments;
pub use same::{has_number, stands_for};
