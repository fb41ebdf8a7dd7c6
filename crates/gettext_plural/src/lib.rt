//! The header field `Plural-Forms` of gettext's catalogs: which form of a message a number has.
#![tactic(auto)]

mod error;
mod expression;
mod forms;
mod header;
pub mod laws;
mod lexer;
mod pending;
mod reader;
mod token;

pub use error::{FaultKind, IndexError, PluralFormsError};
pub use forms::{PluralForms, SIZE_LIMIT};
pub use header::FORMS_LIMIT;
