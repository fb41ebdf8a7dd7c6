//! The texts of rules.

ghost use Rattle.std.specs.Prelude.{◌≡◌};

use icu_plurals::PluralCategory;
use plural_fallback::Part;
use serde_json::Value;

/// The texts of rules, by their keys and categories: those of which samples are told.
pub trait RuleTexts {
    ghost use Rattle.std.specs.Prelude.{Option, List, ℕ};
    ghost use Rattle.std.specs.Option.{option_copied};
    ghost use Rattle.icu_plurals.specs.declared.PluralCategory.{PluralCategory as Category};
    ghost use Rattle.plural_fallback.specs.declared.locales.Part.{Part as PartOf};

    // The text of a category under a key of a part.
    ghost texts: { Self → PartOf → List ℕ → Category → Option (List ℕ) };

    /// Returns the text of a category under a key of a part, if there is one. It allocates nothing.
    fn rule_text(&self, part: Part, key: &str, category: PluralCategory) -> Option<&str>
        ensures { option_copied result ≡ texts self.now part key.now category };
}

/// A document of rules: the texts under the names of categories.
impl RuleTexts for Value {
    ghost use Rattle.message_report.specs.RulesSource.{text_in};
    ghost use Rattle.serde_json.specs.View.{view};

    ghost texts = { λ value part key category. text_in (view value) part key category };

    fn rule_text(&self, part: Part, key: &str, category: PluralCategory) -> Option<&str> {
        self.get(part.as_str())?
            .get(key)?
            .get(category.as_str())?
            .as_str()
    }
}
