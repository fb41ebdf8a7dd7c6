//! Notes on a document of rules, and its report with them.
#![tactic(auto)]

mod document_note;
mod key_notes;
mod language_notes;
pub mod laws;
mod noted_lines;
mod noted_printer;
pub mod run;

pub use document_note::{DocumentNote, DocumentNotes, notes_in};
pub use key_notes::key_notes_of;
pub use noted_lines::noted_text;
pub use noted_printer::{NotedLines, NotedPrinter};
