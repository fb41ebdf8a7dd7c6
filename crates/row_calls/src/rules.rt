//! Arguments and results that are rules and what belongs to them.

use crate::call::Call;
use fixed_decimal::CompactDecimal;
use plural_base::{
    JsonProvider, PluralCategory, PluralRuleType, PluralRules, PluralRulesData, RawPluralCategory,
};
use std::fmt::Debug;

/// Returns a category's name in CLDR.
pub fn name_of(category: PluralCategory) -> &'static str {
    RawPluralCategory::from(category).as_str()
}

impl Call {
    /// Returns the category that the next argument names.
    pub fn category(&mut self) -> PluralCategory {
        let name = self.text();
        if let Some(category) = PluralCategory::get_for_cldr_string(name.as_str()) {
            return category;
        }
        self.not("a category");
        PluralCategory::Other
    }

    /// Returns the next argument as a compact decimal, which its text has to write.
    pub fn compact(&mut self) -> Option<CompactDecimal> {
        let text = self.text();
        match CompactDecimal::from_str(self.alloc, text.as_str()) {
            Ok(number) => Some(number),
            Err(error) => {
                self.refused("a compact decimal", &error);
                None
            }
        }
    }

    /// Returns the next argument as the rules of a language.
    pub fn plural_rules(&mut self) -> PluralRules<'static> {
        PluralRules::from_data(self.rules())
    }

    /// Returns the provider of the document in the next argument.
    pub fn provider(&mut self) -> Option<JsonProvider> {
        let document = self.value();
        match JsonProvider::from_value(self.alloc, &document) {
            Ok(provider) => Some(provider),
            Err(error) => {
                self.refused("a document", &error);
                None
            }
        }
    }

    /// Returns the type of rules that the next argument names, or none for `null`.
    pub fn rule_type(&mut self) -> Option<PluralRuleType> {
        let name = self.optional_text();
        match name.as_deref() {
            Some("cardinal") => Some(PluralRuleType::Cardinal),
            Some("ordinal") => Some(PluralRuleType::Ordinal),
            Some(_) => {
                self.not("a type of rules");
                None
            }
            None => None,
        }
    }

    /// Prints rules as JSON.
    pub fn print_rules(&mut self, rules: &PluralRulesData<'_>) {
        match rules.to_json(self.alloc) {
            Ok(value) => self.print_json(&value),
            Err(_) => self.out_of_memory(),
        }
    }

    /// Prints a text that was made between quotes, or why there is none.
    pub fn print_said<E: Debug + Drop>(&mut self, said: Result<String, E>) {
        match said {
            Ok(text) => self.print_quoted(text.as_str()),
            Err(fault) => self.print_error(&fault),
        }
    }
}
