//! Places as JSON objects.

ghost use Rattle.std.specs.Prelude.{◌≡◌, codes, IfOk};
ghost use Rattle.document_formats.specs.DocumentObjects.{locale_members, document_place_data, with_text_member};
ghost use Rattle.document_report.specs.DocumentPlaces.{finding_place_view, locale_place_view};
ghost use Rattle.icu_plurals.specs.Categories.{name_of};
ghost use Rattle.serde_json.specs.Data.{object};
ghost use Rattle.serde_json.specs.View.{view};

use document_report::{FindingPlace, LocalePlace};
use icu_plurals::PluralCategory;
use icu_plurals::provider::RawPluralCategory;
use serde_json::{Value, json};
use std::alloc::{AllocError, Global};

// The object of a place.
pub(crate) fn place_value(alloc: Global, place: FindingPlace<'_>) -> Result<Value, AllocError>
    ensures { IfOk result (λ value. view value ≡ document_place_data (finding_place_view place.entry)) }
{
    match place {
        FindingPlace::Document => json!(in alloc; {"kind": "document"}),
        FindingPlace::Part(key) => json!(in alloc; {"key": key, "kind": "part"}),
        FindingPlace::Parents => json!(in alloc; {"kind": "parents"}),
        FindingPlace::Parent(locale) => json!(in alloc; {"kind": "parent", "locale": locale}),
        FindingPlace::Locale(locale) => locale_value(alloc, locale),
        FindingPlace::Text(locale, category) => text_value(alloc, locale, category),
        FindingPlace::Key(locale, key) => key_value(alloc, locale, key),
    }
}

// The object of a locale.
fn locale_value(alloc: Global, locale: LocalePlace<'_>) -> Result<Value, AllocError>
    ensures { IfOk result (λ value. view value
        ≡ object (with_text_member (codes "kind") (codes "locale") (locale_members (locale_place_view locale.entry)))) }
{
    json!(in alloc; {"kind": "locale", "locale": locale.locale, "part": locale.part.as_str()})
}

// The object of the text of a category.
fn text_value(
    alloc: Global,
    locale: LocalePlace<'_>,
    category: PluralCategory,
) -> Result<Value, AllocError>
    ensures { IfOk result (λ value. view value
        ≡ object (with_text_member (codes "category") (name_of category) (with_text_member (codes "kind") (codes "text")
        (locale_members (locale_place_view locale.entry))))) }
{
    json!(in alloc; {
        "category": RawPluralCategory::from(category).as_str(),
        "kind": "text",
        "locale": locale.locale,
        "part": locale.part.as_str()
    })
}

// The object of a key of a locale.
fn key_value(alloc: Global, locale: LocalePlace<'_>, key: &str) -> Result<Value, AllocError>
    ensures { IfOk result (λ value. view value
        ≡ object (with_text_member (codes "key") key.now (with_text_member (codes "kind") (codes "key")
        (locale_members (locale_place_view locale.entry))))) }
{
    json!(in alloc; {
        "key": key,
        "kind": "key",
        "locale": locale.locale,
        "part": locale.part.as_str()
    })
}
