//! Translators' files, read into what a check of messages takes: their messages by plural category,
//! the lines where these stand, and what is wrong with the files.
#![tactic(auto)]

mod code;
mod counts;
mod file_messages;
mod gathered;
mod json_file;
mod lines;
mod locale_name;
mod notice;
mod notices;
mod places;
mod po;
mod pushed;
mod read_file;

pub use code::NoticeCode;
pub use counts::{Fate, FileCounts};
pub use file_messages::FileMessages;
pub use json_file::{is_document, read_json};
pub use lines::{FormLine, MessageKind, MessageLines};
pub use notice::FileNotice;
pub use places::Places;
pub use po::read_po;
pub use read_file::{no_messages, read_messages};
