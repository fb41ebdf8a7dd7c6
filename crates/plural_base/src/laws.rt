//! What is true of all rules and ranges.

ghost use Rattle.plural_base.specs.ChoiceLaws.{BoundIsWidestForChoice, KeptChoiceIsExact};
ghost use Rattle.plural_base.specs.Ranges.{RangeBytesDiffer, RangesAreTheirMaps};
ghost use Rattle.plural_base.specs.RulesBytes.{RulesHaveOneEncoding};
ghost use Rattle.plural_base.specs.RuleTexts.{HaveEveryReading, IsAnswerFor};
ghost use Rattle.plural_reference.specs.Parser.{Reads};
ghost use Rattle.plural_reference.specs.Lexer.{TextReads};
ghost use Rattle.plural_reference.specs.Samples.{ReadsCondition};
ghost use Rattle.plural_runtime.specs.RuleOfText.{TextsGiveOneAnswer};

use packed_list::laws as lists;
use plural_reference::laws::exactness;
use plural_reference::laws::reading::{one_list_of_tokens, one_reading};
use plural_runtime::laws as runtime;

/// Within the bound, under rules that are read from texts, the category that a number's kept
/// operands choose is exact.
pub fn kept_choice_is_exact()
    ensures { KeptChoiceIsExact }
{
    exactness::kept_operands_agree();
    runtime::texts_give_one_answer();
}

/// The bound on moduli is the widest: for each modulus `m` from 1 to 4294967295 that doesn't
/// divide `10^18`, under the single rule one: `i % m = r`, with `r = 2 * 10^18 mod m`, the number
/// `2 * 10^18` has the category one, and its kept operands choose other.
pub fn bound_is_widest()
    ensures { BoundIsWidestForChoice }
{
    exactness::bound_is_widest();
}

/// Every text has exactly one result as a rule: the relations that its condition is packed to, or
/// the reason why it gives none.
pub fn texts_give_one_answer()
    ensures { TextsGiveOneAnswer }
{
    runtime::texts_give_one_answer();
}

/// Rules of texts are those of every reading of these texts, be they read as rules (`rules`), as
/// conditions (`conditions`), or by [`plural_reference::parse_condition`] (`answers`). So the
/// clause `exact` of [`PluralRules::category_for_decimal`] is about any conditions that a caller
/// has read from the texts itself.
///
/// [`PluralRules::category_for_decimal`]: crate::PluralRules::category_for_decimal
pub fn rules_have_every_reading()
    ensures rules { HaveEveryReading (TextReads ReadsCondition) }
    ensures conditions { HaveEveryReading (TextReads Reads) }
    ensures answers { HaveEveryReading IsAnswerFor }
{
    one_list_of_tokens();
    one_reading();
}

/// Rules of a language have the same bytes if and only if they are the same.
pub fn rules_have_one_encoding()
    ensures { RulesHaveOneEncoding }
{
    lists::one_encoding();
    runtime::one_encoding();
}

/// No two ranges have one byte: [`UnvalidatedPluralRange::from_range`] is injective.
///
/// [`UnvalidatedPluralRange::from_range`]: crate::UnvalidatedPluralRange::from_range
pub fn range_bytes_differ()
    ensures { RangeBytesDiffer }
{}

/// Tables of ranges that have the same category at each pair are equal.
pub fn ranges_are_their_maps()
    ensures { RangesAreTheirMaps }
{}

pub mod ranges;
