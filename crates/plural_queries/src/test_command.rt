//! The command `test`.

ghost use Rattle.std.specs.Prelude.{◌≡◌};
ghost use Rattle.icu_plurals.specs.Operands.{of_whole};
ghost use Rattle.icu_plurals.specs.Truth.{tree_truth};
ghost use Rattle.plural_queries.specs.LookupAnswers.{truth_line};

use icu_plurals::PluralOperands;
use icu_plurals::provider::rules::reference::ast::Condition;
use icu_plurals::provider::rules::reference::test_condition;

/// Returns the line for a condition and an integer: whether the condition is true of the integer.
pub fn truth_line(condition: &Condition, number: u64) -> &'static str
    ensures { result.now ≡ truth_line (tree_truth (of_whole number) condition.now) }
{
    if test_condition(condition, &PluralOperands::from(number)) {
        "true\n"
    } else {
        "false\n"
    }
}
