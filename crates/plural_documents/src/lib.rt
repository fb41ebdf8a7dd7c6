//! What the programs that read JSON documents share: an input read to a limit, the JSON value of
//! bytes, how its keys are printed, the counts of a report, and an output written.
#![tactic(auto)]

mod counts;
mod input;
mod json_text;
mod json_tokens;
mod kept_place;
mod lines;
mod locale_provider;
mod members;
mod outline;
mod output;
mod printed_key;
mod repeated_key;
mod rules_check;
mod rules_place;
mod tokens_left;
mod written_lines;

pub use counts::{MOST_TOLD, sum};
pub use document_tokens::JsonTextError;
pub use input::{InputError, read_input};
pub use json::Scratch;
pub use json_text::json_value;
pub use json_tokens::JsonTokens;
pub use kept_place::{KeptPlace, PrintedPlace};
pub use lines::{LinePrinter, push_lines};
pub use locale_provider::provider_of_locale;
pub use members::{Findings, MemberCheck, add_members};
pub use outline::{Portion, Sieve, json_outline};
pub use output::{OutputError, write_output};
pub use printed_key::{PrintedKey, key_text, name_text, printed_name};
pub use repeated_key::{KeyPath, RepeatedKey, repeated_keys};
pub use written_lines::{WaitingBytes, write_lines};
