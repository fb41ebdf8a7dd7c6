//! What is found in files of messages, printed for people and for programs.
#![tactic(auto)]

mod cause_object;
mod code;
mod command;
mod finding_object;
mod format;
mod json_lines;
pub mod laws;
mod line_mark;
mod located;
mod located_commands;
mod located_lines;
mod located_log;
mod located_object;
mod located_report;
mod located_words;
pub mod log;
mod members;
mod notice;
mod place_object;
mod printed;
mod printed_located;
mod reference;
mod sarif;
mod severity;
mod told;
mod totals;
mod workflow;

pub use code::Code;
pub use format::Format;
pub use json_lines::push_value;
pub use located::Located;
pub use notice::Notice;
pub use printed::print;
pub use printed_located::print_located;
pub use reference::file_reference;
pub use told::Told;
pub use totals::Totals;
