//! A store of a packed rule and packed texts, read in place.

ghost use Rattle.std.specs.Prelude.{◌≡◌, Some, IfSome};
ghost use Rattle.icu_plurals.specs.Elements.{IsExactElement, IsKeptElement};

use icu_plurals::laws::{kept_element_is_exact, packed_elements_answer};
use icu_plurals::provider::rules::runtime::ast::Rule;
use icu_plurals::provider::{PluralElementsPackedCow, PluralRulesData};
use icu_plurals::{CompactDecimal, PluralOperands, PluralRules};

/// A rule for `one` and texts by category, in bytes that are stored elsewhere, such as in a file.
#[derive(Debug, Drop)]
pub struct Store<'a> {
    pub rules: PluralRules<'a>,
    pub texts: PluralElementsPackedCow<'a>,
}

impl<'a> Store<'a> {
    ghost use Rattle.example_callers.specs.declared.store.Store.{Store as Kept};
    ghost use Rattle.example_callers.specs.Store.{IsStoredIn, IsTextFor};

    /// Returns the rule and the texts in these bytes, or `None` if either is invalid. It allocates
    /// nothing.
    pub fn from_bytes(one: &'a [u8], texts: &'a [u8]) -> Option<Store<'a>>
        ensures ok { IfSome result (λ store. IsStoredIn store one.now texts.now) }
        ensures accepted { (store : Kept) → IsStoredIn store one.now texts.now → result ≡ Some store }
    {
        let Ok(rule) = Rule::parse_bytes(one) else {
            return None;
        };
        let Ok(texts) = PluralElementsPackedCow::from_bytes(texts) else {
            return None;
        };
        let rules = PluralRules::from_data(PluralRulesData {
            zero: None,
            one: Some(rule),
            two: None,
            few: None,
            many: None,
        });
        Some(Store { rules, texts })
    }

    /// Returns the text for a number. It allocates nothing.
    pub fn get(&self, number: &CompactDecimal) -> &str
        ensures kept { IsTextFor IsKeptElement self.now number.now result.now }
        ensures exact { IsTextFor IsExactElement self.now number.now result.now }
    {
        packed_elements_answer();
        kept_element_is_exact();
        let operands = PluralOperands::from(number);
        self.texts.get(operands, &self.rules)
    }
}
