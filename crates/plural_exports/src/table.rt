//! A table of the categories of integers, in bytes that the caller keeps.

ghost use Rattle.std.specs.Prelude.{◌≡◌};
ghost use Rattle.plural_exports.specs.GivenBytes.{ReadsRules};
ghost use Rattle.plural_exports.specs.Results.{Answered, Written};
ghost use Rattle.plural_exports.specs.TableAnswers.{AreTableFor, IsToldByTable, told_number};

use crate::buffer::put;
use crate::fault::Fault;
use crate::given::rules_in;
use crate::number_category::category_number;
use icu_plurals::{CategoryTable, PluralCategory, PreparedRules};

// The number that tells that the rules are asked.
const ASK: i32 = 6;

/// Writes the table of the categories of integers under the rules, 236 bytes, which
/// [`category_by_table`] takes. The result is 236; if the buffer is shorter, nothing is
/// written. It allocates nothing.
///
/// A fault is negative, and is one of the rules; then nothing is written.
pub fn table_of_rules(rules: &[u8], out: &mut [u8]) -> i64
    ensures { Written (AreTableFor rules.now) out.old out.new result }
{
    match table_for(rules) {
        Ok(table) => put(&table, out),
        Err(fault) => i64::from(fault.number()),
    }
}

/// Returns the category that a table has for an integer, by its number: 0 zero, 1 one, 2 two, 3
/// few, 4 many, 5 other; 6 if the rules have to be asked. Any bytes may be given: of a table that
/// [`table_of_rules`] wrote it is the category that those rules choose. It allocates
/// nothing.
///
/// The only fault is that the table isn't of 236 bytes, -80.
pub fn category_by_table(table: &[u8], number: u64) -> i32
    ensures { Answered (IsToldByTable table.now number) told_number result }
{
    match told_by_table(table, number) {
        Ok(told) => told_number(told),
        Err(fault) => fault.number(),
    }
}

// The table of the rules.
fn table_for(rules: &[u8]) -> Result<[u8; 236], Fault>
    ensures { AreTableFor rules.now result }
{
    let rules = prepared_in(rules)?;
    Ok(rules.to_table())
}

// The rules of a block, with their tables.
fn prepared_in(bytes: &[u8]) -> Result<PreparedRules<'_>, Fault>
    ensures { ReadsRules bytes.now result }
{
    let rules = rules_in(bytes)?;
    Ok(PreparedRules::from_rules(rules))
}

// What the table tells of an integer.
#[inline(always)]
fn told_by_table(table: &[u8], number: u64) -> Result<Option<PluralCategory>, Fault>
    ensures { IsToldByTable table.now number result }
{
    match CategoryTable::from_bytes(table) {
        Some(table) => Ok(table.category_for_integer(number)),
        None => Err(Fault::TableLength),
    }
}

// The number of what is told.
#[inline(always)]
pub(crate) fn told_number(told: Option<PluralCategory>) -> i32
    ensures { result ≡ told_number told }
{
    match told {
        Some(category) => category_number(category),
        None => ASK,
    }
}
