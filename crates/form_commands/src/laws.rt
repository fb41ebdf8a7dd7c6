//! What holds of the lines for gettext.

ghost use Rattle.form_commands.specs.GettextLines.{FormsAreChosen};
ghost use Rattle.form_commands.specs.RuleConditions.{ConditionsAreRules};

/// The condition of a rule, as an expression of C, is true of the whole numbers of which the rule
/// is.
pub fn conditions_are_rules()
    ensures { ConditionsAreRules }
{}

/// Of each whole number whose category has a form, the expression of C in the line for gettext has
/// the place of this form as its value.
pub fn forms_are_chosen()
    ensures { FormsAreChosen }
{}
