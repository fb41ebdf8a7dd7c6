//! A printed text is read as what it was printed from.

ghost use Rattle.plural_reference.specs.PrintingLaws.{ConditionsOfTextsAreSpellable, SpellableConditionsPrintBack, ConditionsPrintBack, RulesPrintBack};

/// A condition that is read from a text has no empty group and no empty list of ranges, and no
/// number above 4294967295.
pub fn conditions_of_texts_are_spellable()
    ensures { ConditionsOfTextsAreSpellable }
{}

/// Each condition with no empty group, no empty list of ranges and no number above 4294967295 is
/// read from its printed text: by itself, and as the condition of a rule without samples.
pub fn spellable_conditions_print_back()
    ensures { SpellableConditionsPrintBack }
{}

/// A condition that is read from a text is read again from its printed text.
pub fn conditions_print_back()
    ensures { ConditionsPrintBack }
{}

/// A rule that is read from a text is read again from its printed text, if each run of digits of
/// its samples, leading zeros aside, is at most 4294967295.
pub fn rules_print_back()
    ensures { RulesPrintBack }
{}
