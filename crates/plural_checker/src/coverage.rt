//! Which categories a translation lacks, and which of its categories are unused.

ghost use Rattle.std.specs.Prelude.{◌≡◌, ◌&&◌, not};
ghost use Rattle.icu_plurals.specs.FiveRules.{rules_of};
ghost use Rattle.plural_checker.specs.LanguageTexts.{categories_with_rule, categories_with_value, categories_without};

use icu_plurals::PluralElements;
use icu_plurals::provider::PluralRulesData;
use plural_base::make_five;

/// A set of categories, without other.
#[derive(Clone, Copy, Debug, Default, PartialEq, Eq)]
pub struct CategorySet {
    /// Whether `zero` is in it.
    pub zero: bool,
    /// Whether `one` is in it.
    pub one: bool,
    /// Whether `two` is in it.
    pub two: bool,
    /// Whether `few` is in it.
    pub few: bool,
    /// Whether `many` is in it.
    pub many: bool,
}

impl CategorySet {
    /// Returns the categories that have a rule.
    pub fn of_rules(rules: &PluralRulesData<'_>) -> CategorySet
        ensures { result ≡ categories_with_rule (rules_of rules.now) }
    {
        make_five!(CategorySet, rules, |rule| rule.is_some())
    }

    /// Returns the categories whose value is present in elements: those for which
    /// [`get`](PluralElements::get) doesn't fall back on other. The values for exactly 0 and 1
    /// belong to no category. It allocates nothing.
    pub fn of_elements<T>(elements: &PluralElements<T>) -> CategorySet
        ensures { result ≡ categories_with_value elements.now }
    {
        make_five!(CategorySet, |category| elements.has_value_of(category))
    }

    /// Returns the categories of this set that are not in another.
    pub fn without(self, others: CategorySet) -> CategorySet
        ensures { result ≡ categories_without self others }
    {
        CategorySet {
            zero: is_in_first_alone(self.zero, others.zero),
            one: is_in_first_alone(self.one, others.one),
            two: is_in_first_alone(self.two, others.two),
            few: is_in_first_alone(self.few, others.few),
            many: is_in_first_alone(self.many, others.many),
        }
    }
}

// Whether what may be in two sets is in the first alone.
fn is_in_first_alone(first: bool, second: bool) -> bool
    ensures { result ≡ first && not second }
{
    first && !second
}

/// How the categories of a translated message match a language's rules (UTS 35 Part 3, Language
/// Plural Rules).
#[derive(Clone, Copy, Debug, PartialEq, Eq)]
pub struct Coverage {
    /// The categories that have a rule and that the message lacks: their numbers use the element of
    /// other.
    pub lacking: CategorySet,
    /// The categories that the message has and that have no rule: no number uses their element.
    pub unused: CategorySet,
}

impl Coverage {
    /// Compares the categories for which a message has an element with the rules.
    pub fn of(elements: CategorySet, rules: &PluralRulesData<'_>) -> Coverage
        ensures lacking { result.lacking ≡ categories_without (categories_with_rule (rules_of rules.now)) elements }
        ensures unused { result.unused ≡ categories_without elements (categories_with_rule (rules_of rules.now)) }
    {
        let ruled = CategorySet::of_rules(rules);
        Coverage {
            lacking: ruled.without(elements),
            unused: elements.without(ruled),
        }
    }
}
