//! A law of reports with notes.

ghost use Rattle.document_notes.specs.NotedText.{NoNotesChangeNothing};

/// The report of a document without notes is printed as [`Report::text`](document_report::Report::text)
/// returns it.
pub fn no_notes_change_nothing()
    ensures { NoNotesChangeNothing }
{}
