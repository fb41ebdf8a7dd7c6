//! The type of rules that is meant.

ghost use Rattle.std.specs.Prelude.{◌≡◌, Some};

/// What numbers are used for (UTS 35 Part 3, Language Plural Rules).
#[derive(Clone, Copy, Debug, Default, PartialEq, Eq, Hash)]
pub enum PluralRuleType {
    /// Numbers that count: `1 day`, `2 days`. The default.
    #[default]
    Cardinal,
    /// Numbers that order: `1st day`, `2nd day`.
    Ordinal,
}

/// Which rules are requested. By default no type is set.
///
/// <!-- snippet crates/tests_libraries/src/tests/plural_base_rules.rt: example body of fn options_name_a_type_or_none -->
/// ```
/// assert!(rt; PluralRuleType::default() == PluralRuleType::Cardinal);
/// assert!(rt; PluralRulesOptions::default().rule_type == None);
/// let options = PluralRulesOptions::default().with_type(PluralRuleType::Ordinal);
/// assert!(rt; options.rule_type == Some(PluralRuleType::Ordinal));
/// assert!(rt; PluralRulesOptions::from(PluralRuleType::Ordinal) == options);
/// ```
#[derive(Clone, Copy, Debug, Default, PartialEq, Eq)]
pub struct PluralRulesOptions {
    /// The type of the rules; `None` means cardinal.
    pub rule_type: Option<PluralRuleType>,
}

impl PluralRulesOptions {
    /// Returns the same options with this type.
    pub fn with_type(self, rule_type: PluralRuleType) -> PluralRulesOptions
        ensures { result ≡ record { rule_type = Some rule_type } }
    {
        PluralRulesOptions {
            rule_type: Some(rule_type),
        }
    }
}

/// Options of this type.
impl From<PluralRuleType> for PluralRulesOptions {
    ghost from_gives = { λ rule_type options. options ≡ record { rule_type = Some rule_type } };

    fn from(rule_type: PluralRuleType) -> PluralRulesOptions {
        PluralRulesOptions::default().with_type(rule_type)
    }
}
