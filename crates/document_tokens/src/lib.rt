//! The tokens of a JSON text, which are read in one loop.
#![tactic(auto)]

mod error;
mod held_token;
mod json_number;
mod nesting;
mod read_tokens;
mod token_place;

pub use error::JsonTextError;
pub use held_token::HeldToken;
pub use read_tokens::text_tokens;
