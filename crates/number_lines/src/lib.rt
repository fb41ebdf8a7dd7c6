//! The categories of numbers, a line each: of words, or of the lines of an input as they are read.
#![tactic(auto)]

mod error;
mod number;
mod plain;
mod printed;
mod stream;

pub use error::LinesError;
pub use number::numbers_text;
pub use printed::{NumberFault, Place, Printed};
pub use stream::answer_input;
