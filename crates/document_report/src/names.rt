//! The names in a document: the keys of its locales, of their texts and ranges.

ghost use Rattle.std.specs.Prelude.{◌≡◌};
ghost use Rattle.document_report.specs.CheckedDocument.{has_underscore};

// Whether a name has `_`.
pub(crate) fn has_underscore(name: &str) -> bool
    ensures { result ≡ has_underscore name.now }
{
    name.as_bytes().contains(&b'_')
}
