//! What is true of all packed rules.

ghost use Rattle.std.specs.Prelude.{◌≡◌, ◌↔◌, ◌⊎◌, ◌≤◌, ℕ, List, IsTrue};
ghost use Rattle.plural_operands.specs.Operands.{Operands};
ghost use Rattle.plural_reference.specs.Truth.{tree_truth};
ghost use Rattle.plural_runtime.specs.PackedRelations.{PackedRelation, RuleBytes};
ghost use Rattle.plural_runtime.specs.Inner.RuleReading.{relations_in};
ghost use Rattle.plural_runtime.specs.PackedTree.{packed, unpacked, has_no_negated_n};
ghost use Rattle.plural_runtime.specs.PackedTruth.{packed_truth, needed_ranges, range_count};
ghost use Rattle.plural_runtime.specs.RuleOfText.{TextsGiveOneAnswer};
ghost use Rattle.plural_runtime.specs.RuleText.{PrintedRulesPackAgain};

use packed_list::laws::read_again;
use plural_reference::laws::printing::{
    conditions_of_texts_are_spellable, spellable_conditions_print_back,
};
use plural_reference::laws::reading::texts_are_read;

/// Rules have the same bytes if and only if they have the same relations.
pub fn one_encoding()
    ensures { (relations others : List PackedRelation) (a b : List ℕ) → RuleBytes relations a → RuleBytes others b
        → (a ≡ b) ↔ (relations ≡ others) }
{
    read_again();
}

/// The reader of bytes gives the rule that they are packed from.
pub fn relations_read_again()
    ensures { (relations : List PackedRelation) (bytes : List ℕ) → RuleBytes relations bytes → relations_in bytes ≡ relations }
{
    read_again();
}

/// The tree of relations packs to these relations.
pub fn packs_again()
    ensures { (relations : List PackedRelation) → packed (unpacked relations) ≡ relations }
{}

/// At most all ranges are needed.
pub fn at_most_all()
    ensures { (number : Operands) (relations : List PackedRelation) → needed_ranges number relations ≤ range_count relations }
{}

/// A rule is true if and only if its tree is, provided that the fraction is zero or no relation
/// tests `n` with `!=`.
pub fn truths_agree()
    ensures { (number : Operands) (relations : List PackedRelation) → (number.w ≡ 0) ⊎ IsTrue (has_no_negated_n relations)
        → tree_truth number (unpacked relations) ≡ packed_truth number relations }
{}

/// A rule that is packed from a text, printed, read and packed again is the same: the printed text
/// is read as the tree of the rule, and that tree packs to its relations. Equal relations have
/// equal bytes ([`one_encoding`]).
pub fn printed_rules_pack_again()
    ensures { PrintedRulesPackAgain }
{
    conditions_of_texts_are_spellable();
    spellable_conditions_print_back();
}

/// Every text gives exactly one result as a rule: the relations that its condition is packed to, or
/// the reason why it gives none. It is a function of the text.
pub fn texts_give_one_answer()
    ensures { TextsGiveOneAnswer }
{
    texts_are_read();
}
