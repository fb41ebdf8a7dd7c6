//! What is found in a document of plural rules and ranges, printed for people and for programs.
#![tactic(auto)]

mod code;
mod commands;
mod file_text;
mod finding_object;
mod json_lines;
pub mod laws;
mod log;
mod note_code;
mod note_place;
mod noted_commands;
mod noted_format;
mod noted_log;
mod noted_objects;
mod place_object;
mod printed;
mod word_fault;
mod words;

pub use code::Code;
pub use note_code::NoteCode;
pub use noted_format::NotedFormat;
pub use printed::{DocumentFormat, FileFormat, print, print_file};
pub use word_fault::WordFault;
pub use words::{Asked, asked_by, format_of};
