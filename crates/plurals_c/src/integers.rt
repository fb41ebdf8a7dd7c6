//! The categories of integers and of operands.

ghost use Rattle.std.specs.Prelude.{nat_abs};
ghost use Rattle.plural_exports.specs.NumberAnswers.{AreCategoriesOfIntegers, IsCategoryOfInteger, IsCategoryOfOperands, category_number};
ghost use Rattle.plural_exports.specs.Results.{Answered, Written};
ghost use Rattle.plural_exports.specs.TableAnswers.{AreTableFor, IsTextToldByTable, IsToldByTable, told_number};

/// Returns the category of an integer, by its number: 0 zero, 1 one, 2 two, 3 few, 4 many, 5 other.
/// It allocates nothing.
///
/// A fault is negative, and is one of the rules.
#[unsafe(no_mangle)]
pub extern "C" fn plurals_category_of_integer(rules: &[u8], number: u64) -> i32
    ensures { Answered (IsCategoryOfInteger rules.now number) category_number result }
{
    plural_exports::category_of_integer(rules, number)
}

/// Returns the category of an integer, which is that of its absolute value, as
/// [`plurals_category_of_integer`] does. It allocates nothing.
#[unsafe(no_mangle)]
pub extern "C" fn plurals_category_of_signed_integer(rules: &[u8], number: i64) -> i32
    ensures { Answered (IsCategoryOfInteger rules.now (nat_abs number)) category_number result }
{
    plural_exports::category_of_signed_integer(rules, number)
}

/// Returns the category of six operands (UTS 35 Part 3, Plural Operand Meanings), by its number as
/// [`plurals_category_of_integer`] returns it. Any six are allowed, also those of no number. It
/// allocates nothing.
///
/// A fault is negative, and is one of the rules.
#[unsafe(no_mangle)]
pub extern "C" fn plurals_category_of_operands(
    rules: &[u8],
    i: u64,
    v: usize,
    w: usize,
    f: u64,
    t: u64,
    c: usize,
) -> i32
    ensures { Answered (IsCategoryOfOperands rules.now (record { i = i; v = v; w = w; f = f; t = t; c = c })) category_number result }
{
    plural_exports::category_of_operands(rules, i, v, w, f, t, c)
}

/// Writes the categories of integers, a byte each, by their numbers: 0 zero, 1 one, 2 two, 3 few, 4
/// many, 5 other. The result is how many they are; if the buffer is shorter, nothing is written. It
/// allocates nothing.
///
/// A fault is negative, and is one of the rules; then nothing is written.
#[unsafe(no_mangle)]
pub extern "C" fn plurals_categories_of_integers(
    rules: &[u8],
    numbers: &[u64],
    out: &mut [u8],
) -> i64
    ensures { Written (AreCategoriesOfIntegers rules.now numbers.now) out.old out.new result }
{
    plural_exports::categories_of_integers(rules, numbers, out)
}

/// Writes the table of the categories of integers under the rules, 236 bytes, which
/// [`plurals_category_by_table`] takes. The result is 236; if the buffer is shorter, nothing is
/// written. It allocates nothing.
///
/// A fault is negative, and is one of the rules; then nothing is written.
#[unsafe(no_mangle)]
pub extern "C" fn plurals_table_of_rules(rules: &[u8], out: &mut [u8]) -> i64
    ensures { Written (AreTableFor rules.now) out.old out.new result }
{
    plural_exports::table_of_rules(rules, out)
}

/// Returns the category that a table has for an integer, by its number: 0 zero, 1 one, 2 two, 3
/// few, 4 many, 5 other; 6 if the rules have to be asked. Any bytes may be given: of a table that
/// [`plurals_table_of_rules`] wrote it is the category that those rules choose. It allocates
/// nothing.
///
/// The only fault is that the table isn't of 236 bytes, -80.
#[unsafe(no_mangle)]
pub extern "C" fn plurals_category_by_table(table: &[u8], number: u64) -> i32
    ensures { Answered (IsToldByTable table.now number) told_number result }
{
    plural_exports::category_by_table(table, number)
}

/// Returns the category that a table has for the whole number that a text writes in digits, with a
/// plus in front or none, as [`plurals_category_by_table`] returns it; 6 also of any other text. It
/// allocates nothing.
///
/// A fault is negative: the table isn't of 236 bytes, else the text isn't UTF-8.
#[unsafe(no_mangle)]
pub extern "C" fn plurals_text_category_by_table(table: &[u8], text: &[u8]) -> i32
    ensures { Answered (IsTextToldByTable table.now text.now) told_number result }
{
    plural_exports::text_category_by_table(table, text)
}
