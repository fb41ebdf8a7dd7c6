//! Rules from texts.

ghost use Rattle.std.specs.Prelude.{◌≡◌, ◌≢◌, ◌++◌, ◌⊎◌, Some, None, Ok, Err, codes, IfOk, IfErr, OnOk};
ghost use Rattle.std.specs.Option.{option_copied};
ghost use Rattle.plural_runtime.specs.RuleOfText.{rule_error_text};
ghost use Rattle.plural_runtime.specs.RuleOfText.{IsPackedFrom, TextGives, rule_of_text};
ghost use Rattle.plural_base.specs.Categories.{name_of};
ghost use Rattle.plural_base.specs.FiveRules.{five, rules_of};
ghost use Rattle.plural_base.specs.RuleTexts.{AreRulesOf, IsRuleOf, IsRefused, IsFirstRefused, lent_texts};

use crate::category::PluralCategory;
use crate::category::raw::RawPluralCategory;
use crate::five::Five;
use crate::put_five;
use crate::rules::data::PluralRulesData;
use plural_reference::ParseError;
use plural_runtime::laws::texts_give_one_answer;
use plural_runtime::{Rule, RuleError};
use std::alloc::Global;
use std::error::Error;
use std::fmt;

/// Which of five texts gives no rule, and why.
///
/// <!-- snippet crates/example_calls/src/texts.rt: body of fn print_refusal -->
/// ```
/// let one = Some("i = 1");
/// let few = Some("i 2..4");
/// let read = PluralRulesData::from_texts(alloc, None, one, None, few, None);
/// if let Some(error) = read.err() {
///     println!(rt; "{:?}: {}", error.category, error.error)?;
/// }
/// ```
///
/// This prints
///
/// <!-- snippet crates/example_calls/stdout: section refused -->
/// ```text
/// Few: expected operator
/// ```
#[derive(Clone, Copy, Debug, PartialEq, Eq)]
pub struct RulesTextError {
    /// The category whose text it is.
    pub category: PluralCategory,
    /// Why it gives no rule; [`RuleError::Memory`] if memory ran out.
    pub error: RuleError,
}

impl fmt::Display for RulesTextError {
    ghost output = { λ e.
        Some (codes "rule " ++ name_of e.category ++ codes ": " ++ rule_error_text e.error) };

    fn fmt<W: fmt::Write>(&self, f: &mut fmt::Formatter<W>) -> fmt::Result {
        let name = RawPluralCategory::from(self.category).as_str();
        write!(f, "rule {}: {}", name, self.error)
    }
}

impl Error for RulesTextError {}

impl PluralRulesData<'static> {
    ghost use Rattle.plural_base.specs.FiveRules.{rules_of};
    ghost use Rattle.plural_base.specs.RuleTexts.{AreRulesOf, lent_texts, texts_of};

    /// Returns the rules of texts as CLDR writes them (UTS 35 Part 3, Plural Rules Syntax), samples
    /// included, read in the order zero, one, two, few, many. It allocates for each rule. What
    /// stands after the longest beginning of a text that is a rule is left: of `i = 1 adn v = 0` the
    /// rule `i = 1` is read, and [`is_read_whole`](plural_reference::is_read_whole) tells it.
    ///
    /// <!-- snippet crates/tests_libraries/src/tests/plural_base_rules.rt:
    ///      example "let one" to "let rules" of fn rules_of_four_forms_choose_as_languages_do -->
    /// ```
    /// let one = Some("n % 10 = 1 and n % 100 != 11");
    /// let two = Some("n % 10 = 2 and n % 100 != 12");
    /// let few = Some("n % 10 = 3 and n % 100 != 13");
    /// let data = PluralRulesData::from_texts(alloc, None, one, two, few, None)?;
    /// let rules = PluralRules::from_data(data);
    /// ```
    ///
    /// The error names the first text that gives no rule; later texts aren't read. Its cause is
    /// [`RuleError::Parse`] if the text or its samples have a fault, [`RuleError::StartLimit`] if
    /// the packed rule would be too long, and [`RuleError::Memory`] if memory ran out.
    pub fn from_texts(
        alloc: Global,
        zero: Option<&str>,
        one: Option<&str>,
        two: Option<&str>,
        few: Option<&str>,
        many: Option<&str>,
    ) -> Result<PluralRulesData<'static>, RulesTextError>
        ensures ok { let texts = texts_of zero.entry one.entry two.entry few.entry many.entry in
            IfOk result (λ rules. AreRulesOf texts (rules_of rules)) }
        ensures refused { let texts =
            texts_of zero.entry one.entry two.entry few.entry many.entry in
            IfErr result (λ e. IsFirstRefused texts e.category e.error) }
        // The values of a text fit: only trees made by hand have this fault.
        ensures fits { IfErr result (λ e. e.error ≢ RuleError.Parse ParseError.ValueTooLarge) }
    {
        let texts = Five {
            zero,
            one,
            two,
            few,
            many,
        };
        PluralRulesData::from_five(alloc, &texts)
    }

    /// Returns the rules of texts that are named, as [`PluralRulesData::from_texts`] does. [`Five`]
    /// has an example.
    pub fn from_five(
        alloc: Global,
        texts: &Five<Option<&str>>,
    ) -> Result<PluralRulesData<'static>, RulesTextError>
        ensures ok { IfOk result (λ rules. AreRulesOf (lent_texts texts.now) (rules_of rules)) }
        ensures refused { IfErr result (λ e. IsFirstRefused (lent_texts texts.now) e.category e.error) }
        // The values of a text fit: only trees made by hand have this fault.
        ensures fits { IfErr result (λ e. e.error ≢ RuleError.Parse ParseError.ValueTooLarge) }
    {
        let mut rules = PluralRulesData::default();
        put_rules(alloc, texts, &mut rules).and(Ok(rules))
    }
}

// Puts the rules of the texts.
fn put_rules(
    alloc: Global,
    texts: &Five<Option<&str>>,
    rules: &mut PluralRulesData<'static>,
) -> Result<(), RulesTextError>
    requires { rules_of rules.old ≡ five None None None None None }
    ensures ok { OnOk result (AreRulesOf (lent_texts texts.now) (rules_of rules.new)) }
    ensures refused { IfErr result (λ e. IsFirstRefused (lent_texts texts.now) e.category e.error) }
    ensures fits { IfErr result (λ e. e.error ≢ RuleError.Parse ParseError.ValueTooLarge) }
{
    put_five!(
        rules,
        texts,
        |rule, text, category| put_rule(alloc, *text, category, rule)?
    );
    Ok(())
}

// Puts the rule of a category's text, if present.
fn put_rule(
    alloc: Global,
    text: Option<&str>,
    category: PluralCategory,
    rule: &mut Option<Rule<'static>>,
) -> Result<(), RulesTextError>
    requires { rule.old ≡ None }
    ensures ok { OnOk result (IsRuleOf (option_copied text.entry) rule.new) }
    ensures refused { IfErr result (λ e.
        (e.category ≡ category) × IsRefused (option_copied text.entry) e.error) }
    ensures fits { IfErr result (λ e. e.error ≢ RuleError.Parse ParseError.ValueTooLarge) }
{
    let Some(text) = text else {
        return Ok(());
    };
    match packed(alloc, text) {
        Ok(found) => {
            *rule = Some(found);
            Ok(())
        }
        Err(error) => Err(RulesTextError { category, error }),
    }
}

// The rule of a text.
pub(crate) fn packed(alloc: Global, text: &str) -> Result<Rule<'static>, RuleError>
    ensures told { (result ≡ rule_of_text text.now) ⊎ (result ≡ Err RuleError.Memory) }
    ensures ok { IfOk result (λ rule. IsPackedFrom text.now (Ok rule)) }
    ensures refused { IfErr result (λ e. TextGives text.now (Err e) ⊎ (e ≡ RuleError.Memory)) }
    ensures fits { IfErr result (λ e. e ≢ RuleError.Parse ParseError.ValueTooLarge) }
{
    texts_give_one_answer();
    Rule::from_str(alloc, text)
}
