//! The places of a document of rules.

ghost use Rattle.std.specs.Prelude.{◌≡◌};
ghost use Rattle.plural_documents.specs.Inner.RulesPlaces.{allows_null, allows_object, place_below};
ghost use Rattle.plural_documents.specs.declared.rules_place.RulesPlace.TheVariants.{Categories, Document, Ranges, Rules};
ghost use Rattle.std.specs.Prelude.{Some};

use plural_base::UnvalidatedPluralRange;

// Where a value of a document of rules stands.
#[derive(Clone, Copy)]
pub(crate) enum RulesPlace {
    Document,
    // The rules of all locales, or of one.
    LocalesRules,
    Rules,
    Rule,
    // The ranges of all locales, or of one, and their categories.
    LocalesRanges,
    Ranges,
    Categories,
    Category,
    // Where no value may stand.
    Nowhere,
}

impl RulesPlace {
    // The place of the member with a key, if it is read.
    pub(crate) fn below(self, key: &str) -> Option<RulesPlace>
        ensures { result ≡ place_below self key.now }
    {
        match self {
            RulesPlace::Document => map_place(key),
            RulesPlace::LocalesRules => Some(RulesPlace::Rules),
            RulesPlace::Rules => rule_place(key),
            RulesPlace::LocalesRanges => Some(RulesPlace::Ranges),
            RulesPlace::Ranges => categories_place(key),
            RulesPlace::Categories => Some(category_place(key)),
            RulesPlace::Rule | RulesPlace::Category | RulesPlace::Nowhere => None,
        }
    }

    // Whether null may stand there.
    pub(crate) fn allows_null(self) -> bool
        ensures { result ≡ allows_null self }
    {
        matches!(
            self,
            RulesPlace::LocalesRules | RulesPlace::LocalesRanges | RulesPlace::Rule
        )
    }

    // Whether an object may stand there, of which a member is read, or none.
    pub(crate) fn allows_object(self, is_any_read: bool) -> bool
        ensures { result ≡ allows_object self is_any_read }
    {
        match self {
            RulesPlace::Ranges => is_any_read,
            RulesPlace::Rule | RulesPlace::Category | RulesPlace::Nowhere => false,
            _ => true,
        }
    }
}

// The place of a map of the document.
fn map_place(key: &str) -> Option<RulesPlace>
    ensures { result ≡ place_below Document key.now }
{
    match key {
        "cardinal" | "ordinal" => Some(RulesPlace::LocalesRules),
        "ranges" => Some(RulesPlace::LocalesRanges),
        _ => None,
    }
}

// The place of a rule by the name of its category.
fn rule_place(key: &str) -> Option<RulesPlace>
    ensures { result ≡ place_below Rules key.now }
{
    match key {
        "zero" | "one" | "two" | "few" | "many" => Some(RulesPlace::Rule),
        _ => None,
    }
}

// The place of the categories of ranges.
fn categories_place(key: &str) -> Option<RulesPlace>
    ensures { result ≡ place_below Ranges key.now }
{
    if key == "ranges" {
        Some(RulesPlace::Categories)
    } else {
        None
    }
}

// The place of a category by the text of its range.
fn category_place(key: &str) -> RulesPlace
    ensures { Some result ≡ place_below Categories key.now }
{
    if UnvalidatedPluralRange::from_text(key).is_some() {
        RulesPlace::Category
    } else {
        RulesPlace::Nowhere
    }
}
