//! The texts of a language's rules.

ghost use Rattle.std.specs.Prelude.{◌≡◌};
ghost use Rattle.plural_checker.specs.LanguageTexts.{has_rule, is_long, six_texts};

use icu_plurals::PluralCategory;
use plural_base::at_category;

/// The most bytes that a text may have. The longest of CLDR 41 has 289.
pub const MOST_TEXT_BYTES: usize = 1024;

/// The texts of a language's rules of one type, as in CLDR (UTS 35 Part 3, Plural Rules Syntax and
/// Samples): at most one for each category. The text of other has only samples.
#[derive(Clone, Copy, Debug, Default, PartialEq, Eq)]
pub struct LanguageTexts<'a> {
    /// The text of `zero`.
    pub zero: Option<&'a str>,
    /// The text of `one`.
    pub one: Option<&'a str>,
    /// The text of `two`.
    pub two: Option<&'a str>,
    /// The text of `few`.
    pub few: Option<&'a str>,
    /// The text of `many`.
    pub many: Option<&'a str>,
    /// The text of `other`.
    pub other: Option<&'a str>,
}

impl<'a> LanguageTexts<'a> {
    /// Returns whether numbers can have the category: it is other, or it has a text. The same holds
    /// for ranges of numbers.
    pub fn has_rule(&self, category: PluralCategory) -> bool
        ensures { result ≡ has_rule (six_texts self.now) category }
    {
        at_category!(self, category, |text| text.is_some(), true)
    }
}

// Whether a text has more than the most bytes.
pub(crate) fn is_long(text: &str) -> bool
    ensures { result ≡ is_long text.now }
{
    text.len() > MOST_TEXT_BYTES
}
