//! The condition of a rule at whole numbers, as an expression of C over `n`.

ghost use Rattle.std.specs.Prelude.{◌≡◌, ◌<◌, ◌&&◌, ◌∷◌, [], ◌++◌, List, ℕ, Some, IfOk, OnOk, codes, length, map, slice_get, string_bytes};
ghost use Rattle.std.specs.Fmt.{decimal};
ghost use Rattle.icu_plurals.specs.Truth.{is_in_ranges, under};
ghost use Rattle.icu_plurals.specs.PackedRelations.{PackedRelation};
ghost use Rattle.icu_plurals.specs.RuleKinds.{tree_operand_of};
ghost use Rattle.icu_plurals.specs.RuleViews.{lent_relation};
ghost use Rattle.form_commands.specs.CExpressions.{and_text, atom_text, c_condition_text, comparison_text, or_text, term_text};
ghost use Rattle.form_commands.specs.RuleConditions.{atoms_under, rule_condition_of, in_ranges, inside, is_whole_operand, outside};
ghost use Rattle.form_commands.specs.Inner.ConditionSteps.{AreCut, IsGroup, Joins, begun_before, groups_ended_before, group_texts};

use crate::joined::Joined;
use icu_plurals::provider::rules::runtime::ast::{
    AndOr, Operand, Polarity, RangeOrValue, Relation, Rule,
};
use std::alloc::{AllocError, Global};

// The relations of a group, and whether a whole number may have all.
#[derive(Drop)]
pub(crate) struct Group {
    atoms: Joined,
    is_possible: bool,
}

// The condition of a rule. Relations that are true of all whole numbers are left out, and so are
// groups that have one that is false of all.
pub(crate) fn condition_text(alloc: Global, rule: &Rule<'_>) -> Result<String, AllocError>
    ensures { IfOk result (λ text. string_bytes text ≡ c_condition_text (rule_condition_of rule.now)) }
{
    let mut ended = Joined::new(alloc);
    let mut current = Group::new(alloc);
    for item in rule.iter() {
        let relation = item.as_relation();
        cut_before(alloc, relation.and_or(), &mut ended, &mut current)?;
        current.add(alloc, &relation)?;
    }
    current.end(&mut ended)?;
    String::from_str(alloc, ended.or_text())
}

// At Or the open group ends, and another one begins.
fn cut_before(
    alloc: Global,
    and_or: AndOr,
    ended: &mut Joined,
    current: &mut Group,
) -> Result<(), AllocError>
    ensures { OnOk result ((done : List (List PackedRelation)) (group : List PackedRelation) → AreCut done group ended.old current.old
        → AreCut (groups_ended_before and_or done group) (begun_before and_or group) ended.new current.new) }
{
    match and_or {
        AndOr::And => Ok(()),
        AndOr::Or => {
            current.end(ended)?;
            *current = Group::new(alloc);
            Ok(())
        }
    }
}

impl Group {
    // No relation.
    fn new(alloc: Global) -> Group
        ensures { IsGroup [] result }
    {
        Group {
            atoms: Joined::new(alloc),
            is_possible: true,
        }
    }

    // Appends the text of the group, if a whole number may have all its relations.
    fn end(&self, ended: &mut Joined) -> Result<(), AllocError>
        ensures { OnOk result ((group : List PackedRelation) → IsGroup group self.now → Joins (codes " || ") (group_texts (group ∷ [])) ended.old ended.new) }
    {
        if self.is_possible {
            ended.push(" || ", self.atoms.and_text())?;
        }
        Ok(())
    }

    // Adds a relation.
    fn add(&mut self, alloc: Global, relation: &Relation<'_>) -> Result<(), AllocError>
        ensures { OnOk result ((group : List PackedRelation) → IsGroup group self.old → IsGroup (group ++ lent_relation relation.now ∷ []) self.new) }
    {
        if is_of_number(relation.operand()) {
            return push_relation(alloc, relation, &mut self.atoms);
        }
        let is_true = is_true_of_zero(relation);
        self.is_possible = both(self.is_possible, is_true);
        Ok(())
    }
}

// Whether both are true.
fn both(first: bool, second: bool) -> bool
    ensures { result ≡ (first && second) }
{
    first && second
}

// Whether an operand of a whole number is the number; the others are 0.
fn is_of_number(operand: Operand) -> bool
    ensures { result ≡ is_whole_operand (tree_operand_of operand) }
{
    match operand {
        Operand::N | Operand::I => true,
        Operand::V | Operand::W | Operand::F | Operand::T | Operand::C | Operand::E => false,
    }
}

// Whether a relation is true of 0.
fn is_true_of_zero(relation: &Relation<'_>) -> bool
    ensures { let meaning = (lent_relation relation.now).meaning in result ≡ under meaning.operator (is_in_ranges meaning.ranges 0) }
{
    let is_in = holds_zero(relation);
    match relation.polarity() {
        Polarity::Positive => is_in,
        Polarity::Negative => !is_in,
    }
}

// Whether the list of a relation holds 0.
fn holds_zero(relation: &Relation<'_>) -> bool
    ensures { result ≡ is_in_ranges (lent_relation relation.now).meaning.ranges 0 }
{
    for place in 0..relation.len() {
        let (start, _) = range_at(relation, place);
        if start == 0 {
            return true;
        }
    }
    false
}

// Both ends of the range at a place.
fn range_at(relation: &Relation<'_>, place: usize) -> (u32, u32)
    requires { place < length (lent_relation relation.now).meaning.ranges }
    ensures { slice_get (lent_relation relation.now).meaning.ranges place ≡ Some result }
{
    match relation.range(place) {
        Some(RangeOrValue::Range(start, end)) => (start, end),
        Some(RangeOrValue::Value(value)) => (value, value),
        None => unreachable!(),
    }
}

// Appends a relation of the number.
fn push_relation(
    alloc: Global,
    relation: &Relation<'_>,
    atoms: &mut Joined,
) -> Result<(), AllocError>
    ensures { let meaning = (lent_relation relation.now).meaning in
        OnOk result (Joins (codes " && ") (map atom_text (atoms_under meaning.operator meaning.modulus meaning.ranges)) atoms.old atoms.new) }
{
    let term = term_text(alloc, relation.modulo())?;
    match relation.polarity() {
        Polarity::Positive => push_in_ranges(alloc, term.as_str(), relation, atoms),
        Polarity::Negative => push_outside(alloc, term.as_str(), relation, atoms),
    }
}

// The number, or its remainder.
fn term_text(alloc: Global, modulus: u32) -> Result<String, AllocError>
    ensures { IfOk result (λ text. string_bytes text ≡ term_text modulus) }
{
    if modulus == 0 {
        String::from_str(alloc, "n")
    } else {
        format!(in alloc; "n % {modulus}")
    }
}

// Appends that a term is in one of the ranges.
fn push_in_ranges(
    alloc: Global,
    term: &str,
    relation: &Relation<'_>,
    atoms: &mut Joined,
) -> Result<(), AllocError>
    requires { term.now ≡ term_text (lent_relation relation.now).meaning.modulus }
    ensures { let meaning = (lent_relation relation.now).meaning in
        OnOk result (Joins (codes " && ") (map atom_text (in_ranges meaning.modulus meaning.ranges)) atoms.old atoms.new) }
{
    if relation.len() == 1 {
        return push_inside(alloc, term, range_at(relation, 0), atoms);
    }
    let ranges = ranges_text(alloc, term, relation)?;
    let listed = format!(in alloc; "({ranges})")?;
    atoms.push(" && ", listed.as_str())
}

// The text that a term is in one of the ranges.
fn ranges_text(alloc: Global, term: &str, relation: &Relation<'_>) -> Result<String, AllocError>
    requires { term.now ≡ term_text (lent_relation relation.now).meaning.modulus }
    ensures { let meaning = (lent_relation relation.now).meaning in
        IfOk result (λ text. string_bytes text ≡ or_text (map (λ all. and_text (map comparison_text all)) (map (inside meaning.modulus) meaning.ranges))) }
{
    let mut texts = Joined::new(alloc);
    for place in 0..relation.len() {
        let text = inside_text(alloc, term, range_at(relation, place))?;
        texts.push(" || ", text.as_str())?;
    }
    String::from_str(alloc, texts.or_text())
}

// The text that a term is in a range.
fn inside_text(alloc: Global, term: &str, range: (u32, u32)) -> Result<String, AllocError>
    ensures { (modulus : ℕ) → term.now ≡ term_text modulus → IfOk result (λ text. string_bytes text ≡ and_text (map comparison_text (inside modulus range))) }
{
    let mut texts = Joined::new(alloc);
    push_inside(alloc, term, range, &mut texts)?;
    String::from_str(alloc, texts.and_text())
}

// Appends that a term is in a range.
fn push_inside(
    alloc: Global,
    term: &str,
    range: (u32, u32),
    atoms: &mut Joined,
) -> Result<(), AllocError>
    ensures { (modulus : ℕ) → term.now ≡ term_text modulus
        → OnOk result (Joins (codes " && ") (map comparison_text (inside modulus range)) atoms.old atoms.new) }
{
    let (start, end) = range;
    if start == end {
        return push_comparison(alloc, term, " == ", start, atoms);
    }
    if start == 0 {
        return push_comparison(alloc, term, " <= ", end, atoms);
    }
    push_comparison(alloc, term, " >= ", start, atoms)?;
    push_comparison(alloc, term, " <= ", end, atoms)
}

// Appends a comparison.
fn push_comparison(
    alloc: Global,
    term: &str,
    sign: &str,
    number: u32,
    atoms: &mut Joined,
) -> Result<(), AllocError>
    ensures { OnOk result (Joins (codes " && ") ((term.now ++ sign.now ++ decimal number) ∷ []) atoms.old atoms.new) }
{
    let text = comparison_text(alloc, term, sign, number)?;
    atoms.push(" && ", text.as_str())
}

// A comparison.
fn comparison_text(alloc: Global, term: &str, sign: &str, number: u32) -> Result<String, AllocError>
    ensures { IfOk result (λ text. string_bytes text ≡ term.now ++ sign.now ++ decimal number) }
{
    format!(in alloc; "{term}{sign}{number}")
}

// Appends that a term is outside all ranges.
fn push_outside(
    alloc: Global,
    term: &str,
    relation: &Relation<'_>,
    atoms: &mut Joined,
) -> Result<(), AllocError>
    requires { term.now ≡ term_text (lent_relation relation.now).meaning.modulus }
    ensures { let meaning = (lent_relation relation.now).meaning in
        OnOk result (Joins (codes " && ") (map atom_text (map (outside meaning.modulus) meaning.ranges)) atoms.old atoms.new) }
{
    for place in 0..relation.len() {
        let text = outside_text(alloc, term, range_at(relation, place))?;
        atoms.push(" && ", text.as_str())?;
    }
    Ok(())
}

// The text that a term is outside a range.
fn outside_text(alloc: Global, term: &str, range: (u32, u32)) -> Result<String, AllocError>
    ensures { (modulus : ℕ) → term.now ≡ term_text modulus
        → IfOk result (λ text. string_bytes text ≡ atom_text (outside modulus range)) }
{
    let (start, end) = range;
    if start == end {
        return comparison_text(alloc, term, " != ", start);
    }
    if start == 0 {
        return comparison_text(alloc, term, " > ", end);
    }
    let below = comparison_text(alloc, term, " < ", start)?;
    let above = comparison_text(alloc, term, " > ", end)?;
    format!(in alloc; "({below} || {above})")
}
