//! Which forms a language has, and which of them a number takes, over any reader and writer.
#![tactic(auto)]

mod c_condition;
mod error;
mod excused;
mod fault_byte;
mod gettext;
mod joined;
mod language;
pub mod laws;
mod list;
mod misspelt;
mod name;
mod note;
mod own_numbers;
mod pattern_notes;
mod question;
mod run;
mod similar_keys;
mod translations;
mod unknown_language;

pub use error::{FormsError, LanguageError, Verdict};
pub use name::Name;
pub use number_lines::{NumberFault, Place};
pub use question::{Question, Wanted, question_of};
pub use run::{
    answer_lines, answer_numbers, check_files, check_files_as, list_forms, write_gettext,
};
pub use similar_keys::SimilarKeys;
pub use translations::{Checking, Content, TranslationFile, check_translations};
