//! The report of a document of plural rules and ranges, over any reader and writer.
#![tactic(auto)]

pub mod arguments;
mod cause;
mod counts;
mod document;
mod entry;
mod error;
mod fault_copy;
mod finding;
mod finding_lines;
mod finding_place;
mod form;
mod found;
mod keys;
mod known_texts;
mod languages;
pub mod laws;
mod locales;
mod names;
mod parents;
mod place;
mod report;
mod report_printer;
pub mod run;
mod tables;

pub use cause::Cause;
pub use counts::Counts;
pub use document::{members_of, value_of};
pub use entry::EntryFault;
pub use error::CheckError;
pub use finding::Finding;
pub use finding_place::{FindingPlace, LocalePlace};
pub use known_texts::{FoundInTexts, KnownTexts};
pub use languages::texts_of;
pub use place::{Locale, Place};
pub use plural_fallback::Part;
pub use report::{Report, Verdict, report_of};
pub use report_printer::{ReportLines, ReportPrinter};
