//! Catalogues of messages from a document of messages, and the words of the commands that make and
//! use them.
#![tactic(auto)]

mod arguments;
mod catalog_words;
mod fault;
mod given;
mod locales;
mod packing;
mod texts;

pub use arguments::{Word, arguments_of, takes_number};
pub use catalog_words::{PackWords, SayWords, pack_words, say_words};
pub use fault::PatternsFault;
pub use given::{GivenFault, given_words};
pub use locales::{LocaleMessages, MessagesFault, messages_in, patterns_in};
pub use packing::pack_patterns;
