//! The report of files of messages under plural rules: which forms are missing, unused or without
//! the number.
#![tactic(auto)]

mod argument;
mod branch_fault;
mod branch_kinds;
mod category_numbers;
mod cause;
mod counts;
mod document;
mod error;
mod fault;
mod file;
mod finding;
mod form;
mod form_values;
mod found;
mod keys;
mod language;
mod language_numbers;
mod languages;
pub mod laws;
mod message;
mod message_set;
mod part;
mod pattern;
mod pattern_faults;
mod patterns;
mod place;
mod place_text;
mod plural_argument;
mod printed_key;
mod rare_samples;
mod report;
mod report_printer;
mod rule_texts;
pub mod run;
mod severity;
mod source;
mod source_arguments;
mod source_part;

pub use branch_fault::BranchFault;
pub use cause::Cause;
pub use counts::Counts;
pub use error::ReportError;
pub use fault::FormFault;
pub use file::{MessageFile, found_in_files};
pub use finding::Finding;
pub use form::Form;
pub use found::Found;
pub use message_set::category_set;
pub use place::{ArgumentPlace, LocalePlace, MessagePlace, PatternPlace, Place};
pub use report::report_text;
pub use report_printer::{ReportLines, ReportPrinter, write_text};
pub use rule_texts::RuleTexts;
pub use severity::Severity;
pub use source::RulesOfLocales;
