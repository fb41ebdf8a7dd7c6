//! Rules as data.

ghost use Rattle.std.specs.Prelude.{◌≡◌, IfOk, None, OnOk};
ghost use Rattle.plural_base.specs.FiveRules.{five, rules_of};

use crate::{make_five, put_five};
use plural_runtime::Rule;
use std::alloc::AllocError;

/// The rules of one language and type: at most one for each category but other, which all remaining
/// numbers have. Two are equal if their rules have the same bytes.
///
/// <!-- snippet crates/example_calls/src/bytes.rt: fn stored; "let category" to "let category" of fn print_stored_rule -->
/// ```
/// fn stored(bytes: &[u8]) -> anyhow::Result<PluralRules<'_>> {
///     let one = Rule::parse_bytes(bytes)?;
///     let data = PluralRulesData {
///         one: Some(one),
///         ..PluralRulesData::default()
///     };
///     Ok(PluralRules::from_data(data))
/// }
///
/// let category = stored(bytes)?.category_for(PluralOperands::from(1u8));
/// ```
#[derive(Debug, Default, Drop, PartialEq)]
pub struct PluralRulesData<'data> {
    /// The rule of `zero`.
    pub zero: Option<Rule<'data>>,
    /// The rule of `one`.
    pub one: Option<Rule<'data>>,
    /// The rule of `two`.
    pub two: Option<Rule<'data>>,
    /// The rule of `few`.
    pub few: Option<Rule<'data>>,
    /// The rule of `many`.
    pub many: Option<Rule<'data>>,
}

impl<'data> PluralRulesData<'data> {
    /// Returns the same rules, borrowed from these.
    pub fn as_borrowed(&self) -> PluralRulesData<'_>
        ensures { result ≡ self.now }
    {
        make_five!(PluralRulesData, self, |rule| borrowed(rule))
    }

    /// Returns a copy of the rules. It allocates if a rule owns its bytes; the only error is out of
    /// memory.
    pub fn try_clone(&self) -> Result<PluralRulesData<'data>, AllocError>
        ensures { IfOk result (λ copy. copy ≡ self.now) }
    {
        let mut copy = PluralRulesData::default();
        put_copies(self, &mut copy).and(Ok(copy))
    }
}

// The same rule, if present, borrowed.
fn borrowed<'a>(rule: &'a Option<Rule<'_>>) -> Option<Rule<'a>>
    ensures { result ≡ rule.now }
{
    match rule {
        Some(rule) => Some(rule.as_borrowed()),
        None => None,
    }
}

// Puts copies of the rules.
fn put_copies<'data>(
    rules: &PluralRulesData<'data>,
    copies: &mut PluralRulesData<'data>,
) -> Result<(), AllocError>
    requires { rules_of copies.old ≡ five None None None None None }
    ensures { OnOk result (copies.new ≡ rules.now) }
{
    put_five!(copies, rules, |copy, rule| put_copy(rule, copy)?);
    Ok(())
}

// Puts a copy of the rule, if present.
fn put_copy<'data>(
    rule: &Option<Rule<'data>>,
    copy: &mut Option<Rule<'data>>,
) -> Result<(), AllocError>
    requires { copy.old ≡ None }
    ensures { OnOk result (copy.new ≡ rule.now) }
{
    if let Some(rule) = rule {
        *copy = Some(rule.try_clone()?);
    }
    Ok(())
}
