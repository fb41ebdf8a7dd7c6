//! The category of six operands.

ghost use Rattle.plural_exports.specs.NumberAnswers.{IsCategoryOfOperands, category_number};
ghost use Rattle.plural_exports.specs.Results.{Answered};

use crate::fault::Fault;
use crate::given::rules_in;
use crate::number_category::category_number;
use icu_plurals::{PluralCategory, PluralOperands, RawPluralOperands};

/// Returns the category of six operands (UTS 35 Part 3, Plural Operand Meanings), by its number as
/// [`category_of_integer`] returns it. Any six are allowed, also those of no number. It
/// allocates nothing.
///
/// A fault is negative, and is one of the rules.
///
/// [`category_of_integer`]: crate::category_of_integer
pub fn category_of_operands(
    rules: &[u8],
    i: u64,
    v: usize,
    w: usize,
    f: u64,
    t: u64,
    c: usize,
) -> i32
    ensures { Answered (IsCategoryOfOperands rules.now (record { i = i; v = v; w = w; f = f; t = t; c = c })) category_number result }
{
    let operands = PluralOperands::from(RawPluralOperands { i, v, w, f, t, c });
    match operands_category(rules, operands) {
        Ok(category) => category_number(category),
        Err(fault) => fault.number(),
    }
}

// The category of the operands.
fn operands_category(rules: &[u8], operands: PluralOperands) -> Result<PluralCategory, Fault>
    ensures { IsCategoryOfOperands rules.now operands result }
{
    let rules = rules_in(rules)?;
    Ok(rules.category_for(operands))
}
