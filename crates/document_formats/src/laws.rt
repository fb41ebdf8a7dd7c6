//! A law of lines of JSON: the contract of a function.

ghost use Rattle.document_formats.specs.DocumentLineLaws.{LinesTellReports};

/// The lines of JSON tell the report of a document: the same lines are printed only for findings of
/// the same places, codes and texts in the same order, and the same counts.
pub fn lines_tell_reports()
    ensures { LinesTellReports }
{}
