//! gettext's catalogs, `.po`: their messages as values that carry the lines where they stand.
#![tactic(auto)]

mod bytes;
mod catalog;
mod draft;
mod entry;
mod fault;
mod front;
mod header;
pub mod laws;
mod line;
mod line_kind;
mod quoted;
mod reader;

pub use bytes::first_flag;
pub use catalog::Catalog;
pub use entry::{Entry, Text};
pub use fault::{Cause, Fault, ReadError};
pub use line::{Line, Lines};
pub use quoted::read_text;
