//! The notes of a language's rules.

ghost use Rattle.std.specs.Prelude.{◌≡◌, ◌++◌, [], IfOk, OnOk};
ghost use Rattle.plural_checker.specs.LanguageTexts.{six_texts};
ghost use Rattle.rule_notes.specs.Inner.CauseLists.{Adds};
ghost use Rattle.rule_notes.specs.RuleNotes.{AreNotesOf, AreNotesOfRule, AreRuleCauses, AreRuleNotes, notes_under};

use crate::category_rule::{CategoryRule, rules_of};
use crate::cause::Cause;
use crate::condition_causes::add_condition;
use crate::earlier_rules::{add_alike, add_taken};
use crate::note::Note;
use plural_base::PluralCategory;
use plural_checker::LanguageTexts;
use plural_reference::Sequence;
use std::alloc::{AllocError, Global};

/// Returns the notes of the five texts of a language's rules of one type, in the order of the texts:
/// zero, one, two, few, many. A text of more than
/// [`MOST_TEXT_BYTES`](plural_checker::MOST_TEXT_BYTES) bytes and one that is no rule have none, as
/// if they weren't there; what is wrong with them [`check_texts`](plural_checker::check_texts) tells.
///
/// Of a condition come first, for each relation, its ranges that are upside down, and then the
/// relation, if no operands make it true; then the first earlier category whose condition prints
/// alike; and then that earlier rules have all its numbers, of those that are looked at: 0 to 9999,
/// 0.0 to 99.9 and 0.00 to 99.99. A rule that is true of none of these has no such note.
///
/// It allocates; the only error is out of memory.
pub fn notes_of(alloc: Global, texts: &LanguageTexts<'_>) -> Result<Sequence<Note>, AllocError>
    ensures { IfOk result (λ notes. AreNotesOf (six_texts texts.now).five notes) }
{
    let rules = rules_of(alloc, texts)?;
    let mut notes = Vec::new(alloc);
    add_notes(alloc, rules.as_slice(), &mut notes)?;
    Ok(notes.into())
}

// Adds the notes of rules.
fn add_notes(alloc: Global, rules: &[CategoryRule], notes: &mut Vec<Note>) -> Result<(), AllocError>
    ensures { OnOk result (Adds (AreRuleNotes [] rules.now) notes.old.items notes.new.items) }
{
    for index in 0..rules.len() {
        add_rule_notes(alloc, &rules[..index], &rules[index], notes)?;
    }
    Ok(())
}

// Adds the notes of a rule.
fn add_rule_notes(
    alloc: Global,
    earlier: &[CategoryRule],
    rule: &CategoryRule,
    notes: &mut Vec<Note>,
) -> Result<(), AllocError>
    ensures { OnOk result (Adds (AreNotesOfRule earlier.now rule.now) notes.old.items notes.new.items) }
{
    let causes = rule_causes(alloc, earlier, rule)?;
    add_under(rule.category, causes, notes)
}

// What is noted of a rule.
fn rule_causes(
    alloc: Global,
    earlier: &[CategoryRule],
    rule: &CategoryRule,
) -> Result<Vec<Cause>, AllocError>
    ensures { IfOk result (λ causes. AreRuleCauses earlier.now rule.now causes.items) }
{
    let mut causes = Vec::new(alloc);
    add_condition(alloc, &rule.condition, &mut causes)?;
    add_alike(alloc, earlier, rule, &mut causes)?;
    add_taken(earlier, rule, &mut causes)?;
    Ok(causes)
}

// Adds causes as notes on a category.
fn add_under(
    category: PluralCategory,
    causes: Vec<Cause>,
    notes: &mut Vec<Note>,
) -> Result<(), AllocError>
    ensures { OnOk result (notes.new.items ≡ notes.old.items ++ notes_under category causes.items) }
{
    for cause in causes {
        notes.push(Note { category, cause })?;
    }
    Ok(())
}
