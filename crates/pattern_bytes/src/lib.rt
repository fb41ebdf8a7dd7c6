//! The bytes of patterns of messages: runs of one class, white space and words.
#![tactic(auto)]

mod bytes;

pub use bytes::{Class, after_white, after_word, split_run};
