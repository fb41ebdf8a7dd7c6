//! What is wrong with a number that is listed under a category.

ghost use Rattle.std.specs.Prelude.{Some};
ghost use Rattle.plural_base.specs.FiveRules.{first_category};
ghost use Rattle.plural_base.specs.PackedTruth.{packed_truth};
ghost use Rattle.number_categories.specs.WholeNumbers.{IsCategoryFault, wrong_number_text};

use fixed_decimal::DecimalError;
use plural_base::{AskedRules, PluralCategory, RawPluralCategory};
use plural_operands::PluralOperands;
use std::fmt;

/// Why a number is wrong.
#[derive(Clone, Copy, Debug, PartialEq, Eq)]
pub enum NumberFault {
    /// The text writes no number, or one over a limit. The error is never out of memory.
    Text(DecimalError),
    /// It is outside the exactness bound of the rules.
    Outside,
    /// It has this category, and not the one whose text lists it.
    Category(PluralCategory),
}

impl fmt::Display for NumberFault {
    ghost output = { λ fault. Some (wrong_number_text fault) };

    fn fmt<W: fmt::Write>(&self, f: &mut fmt::Formatter<W>) -> fmt::Result {
        match self {
            NumberFault::Text(error) => write!(f, ": {error}"),
            NumberFault::Outside => f.write_str(" is outside the exactness bound"),
            NumberFault::Category(category) => {
                write!(f, " is {}", RawPluralCategory::from(*category).as_str())
            }
        }
    }
}

/// Returns the fault of a number of these operands that is listed under a category: the category
/// that the rules choose, if that is another. It allocates nothing.
pub fn category_fault(
    rules: &AskedRules<'_>,
    category: PluralCategory,
    operands: PluralOperands,
) -> Option<NumberFault>
    ensures { IsCategoryFault category (first_category (packed_truth operands) rules.now) result }
{
    let chosen = rules.category_for(operands);
    if chosen == category {
        None
    } else {
        Some(NumberFault::Category(chosen))
    }
}
