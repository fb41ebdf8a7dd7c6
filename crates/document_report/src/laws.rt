//! What is true of all documents.

ghost use Rattle.document_report.specs.FaultlessDocuments.{FaultlessDocumentsAreTaken};

use plural_base::laws::texts_give_one_answer;

/// A document whose report counts no fault is one that programs read: its JSON value means maps of
/// rules and of ranges, as [`JsonProvider`](icu_plurals::provider::JsonProvider) reads them, and
/// each of its locales is in them; a locale of the ranges has cardinal rules too. What stands under
/// `elements` isn't checked.
pub fn faultless_documents_are_taken()
    ensures { FaultlessDocumentsAreTaken }
{
    texts_give_one_answer();
}
