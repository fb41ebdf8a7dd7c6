//! Prints a rule.

ghost use Rattle.std.specs.Prelude.{◌≡◌, ◌++◌, [], Some, codes, if◌then◌else◌};
ghost use Rattle.std.specs.Fmt.{DisplaysOnOk};
ghost use Rattle.plural_operands.specs.Operands.{operand_text};
ghost use Rattle.plural_runtime.specs.PackedRelations.{PackedRelation};
ghost use Rattle.plural_runtime.specs.RuleKinds.{operator_of, tree_operand_of};
ghost use Rattle.plural_runtime.specs.RuleText.{mark_text, modulus_text, range_shown, ranges_shown, relation_shown, relations_shown, operator_shown};
ghost use Rattle.plural_runtime.specs.Inner.RuleViews.{lent_relation};

use crate::kinds::{AndOr, Operand, Polarity};
use crate::range::RangeOrValue;
use crate::relation::Relation;
use crate::rule::Rule;
use std::fmt;

/// The text of the rule's tree, as `n % 10 = 3..4, 9 and n % 100 != 10..19 or n = 0`. It allocates
/// nothing.
///
/// A rule without relations has the empty text; one whose first relation is marked Or begins with
/// ` or `.
impl<'data> fmt::Display for Rule<'data> {
    ghost use Rattle.std.specs.Prelude.{Some};
    ghost use Rattle.plural_reference.specs.Serializer.{condition_text};
    ghost use Rattle.plural_runtime.specs.PackedTree.{unpacked};

    ghost output = { λ rule. Some (condition_text (unpacked rule)) };

    fn fmt<W: fmt::Write>(&self, f: &mut fmt::Formatter<W>) -> fmt::Result {
        write_relations(self, f)
    }
}

// Prints the relations, one after the other.
fn write_relations<W: fmt::Write>(rule: &Rule<'_>, f: &mut fmt::Formatter<W>) -> fmt::Result
    ensures { DisplaysOnOk W.write_str_gives f.old result (Some (relations_shown rule.now)) f.new }
{
    let mut is_first = true;
    for item in rule.iter() {
        write_next(is_first, &item.as_relation(), f)?;
        is_first = false;
    }
    Ok(())
}

// Prints a relation, and before it the word that joins it to the previous one.
fn write_next<W: fmt::Write>(
    is_first: bool,
    relation: &Relation<'_>,
    f: &mut fmt::Formatter<W>,
) -> fmt::Result
    ensures { let shown = lent_relation relation.now in
        DisplaysOnOk W.write_str_gives f.old result (Some (mark_text is_first shown.and_or ++ relation_shown shown.meaning)) f.new }
{
    f.write_str(mark(is_first, relation.and_or()))?;
    write_relation(relation, f)
}

// What joins a relation to the previous one.
fn mark(is_first: bool, and_or: AndOr) -> &'static str
    ensures { result.now ≡ mark_text is_first and_or }
{
    match and_or {
        AndOr::Or => " or ",
        AndOr::And => { if is_first { "" } else { " and " } }
    }
}

// Prints a relation.
fn write_relation<W: fmt::Write>(relation: &Relation<'_>, f: &mut fmt::Formatter<W>) -> fmt::Result
    ensures { DisplaysOnOk W.write_str_gives f.old result (Some (relation_shown (lent_relation relation.now).meaning)) f.new }
{
    write_expression(relation.operand(), relation.modulo(), f)?;
    write_list(relation, f)
}

// Prints an operand, and a modulus unless it is 0.
fn write_expression<W: fmt::Write>(
    operand: Operand,
    modulo: u32,
    f: &mut fmt::Formatter<W>,
) -> fmt::Result
    ensures { DisplaysOnOk W.write_str_gives f.old result (Some (operand_text (tree_operand_of operand) ++ modulus_text modulo)) f.new }
{
    f.write_str(operand.as_str())?;
    write_modulus(modulo, f)
}

// Prints a modulus unless it is 0.
fn write_modulus<W: fmt::Write>(modulo: u32, f: &mut fmt::Formatter<W>) -> fmt::Result
    ensures { DisplaysOnOk W.write_str_gives f.old result (Some (modulus_text modulo)) f.new }
{
    if modulo == 0 {
        Ok(())
    } else {
        write!(f, " % {modulo}")
    }
}

// Prints the operator and the ranges of a relation.
fn write_list<W: fmt::Write>(relation: &Relation<'_>, f: &mut fmt::Formatter<W>) -> fmt::Result
    ensures { let meaning = (lent_relation relation.now).meaning in
        DisplaysOnOk W.write_str_gives f.old result (Some (operator_shown meaning.operator ++ ranges_shown meaning.ranges)) f.new }
{
    write_sign(relation.polarity(), f)?;
    write_ranges(relation, f)
}

// Prints the operator of a polarity, with a space on each side.
fn write_sign<W: fmt::Write>(polarity: Polarity, f: &mut fmt::Formatter<W>) -> fmt::Result
    ensures { DisplaysOnOk W.write_str_gives f.old result (Some (operator_shown (operator_of polarity))) f.new }
{
    f.write_str(" ")?;
    f.write_str(polarity.as_str())?;
    f.write_str(" ")
}

// Prints the ranges of a relation with commas between them.
fn write_ranges<W: fmt::Write>(relation: &Relation<'_>, f: &mut fmt::Formatter<W>) -> fmt::Result
    ensures { DisplaysOnOk W.write_str_gives f.old result (Some (ranges_shown (lent_relation relation.now).meaning.ranges)) f.new }
{
    let mut is_first = true;
    for range in relation.ranges() {
        write_next_range(is_first, range, f)?;
        is_first = false;
    }
    Ok(())
}

// Prints a range, and a comma before it unless it is the first.
fn write_next_range<W: fmt::Write>(
    is_first: bool,
    range: RangeOrValue,
    f: &mut fmt::Formatter<W>,
) -> fmt::Result
    ensures { DisplaysOnOk W.write_str_gives f.old result (Some ((if is_first then [] else codes ", ") ++ range_shown range)) f.new }
{
    if is_first {
        write_range(range, f)
    } else {
        f.write_str(", ")?;
        write_range(range, f)
    }
}

// Prints a range.
fn write_range<W: fmt::Write>(range: RangeOrValue, f: &mut fmt::Formatter<W>) -> fmt::Result
    ensures { DisplaysOnOk W.write_str_gives f.old result (Some (range_shown range)) f.new }
{
    match range {
        RangeOrValue::Range(start, end) => write!(f, "{start}..{end}"),
        RangeOrValue::Value(value) => write!(f, "{value}"),
    }
}
