//! The kinds of rows: one file a subject.

mod callers;
mod catalog_words;
mod checker;
mod document_findings;
mod document_reports;
mod error_texts;
mod exported_bytes;
mod exports;
mod fallback;
mod findings;
mod forms;
mod json_files;
mod located_findings;
mod message_reports;
mod noted_documents;
mod outlines;
mod plurals;
mod repeated_keys;
mod sarif_members;
mod translations;

use row_calls::call::Call;
use row_calls::run::Kinds;

/// The calls of rows.
pub struct Calls;

impl Kinds for Calls {
    fn make(kind: &str, call: &mut Call) -> bool {
        checker::make(kind, call)
            || fallback::make(kind, call)
            || document_reports::make(kind, call)
            || document_findings::make(kind, call)
            || noted_documents::make(kind, call)
            || repeated_keys::make(kind, call)
            || message_reports::make(kind, call)
            || findings::make(kind, call)
            || located_findings::make(kind, call)
            || plurals::make(kind, call)
            || outlines::make(kind, call)
            || forms::make(kind, call)
            || callers::make(kind, call)
            || catalog_words::make(kind, call)
            || exports::make(kind, call)
            || exported_bytes::make(kind, call)
            || json_files::make(kind, call)
            || translations::make(kind, call)
            || error_texts::make(kind, call)
    }
}
