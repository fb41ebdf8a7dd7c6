//! Laws of the definitions that the contracts name.

ghost use Rattle.gettext_plural.specs.PluralAnswers.{CountsAreWithin, EveryTextIsTold, NoFaultInForms, TextsHaveOneFault, TextsSayOneThing};

/// A text says one thing at most: its tokens are spelled by one expression.
pub fn texts_say_one_thing()
    ensures { TextsSayOneThing }
{}

/// A text that says something has no fault.
pub fn no_fault_in_forms()
    ensures { NoFaultInForms }
{}

/// A text has one fault at most: one kind, at one byte.
pub fn one_fault()
    ensures { TextsHaveOneFault }
{}

/// Every text says something, or has a fault.
pub fn every_text_is_told()
    ensures { EveryTextIsTold }
{}

/// There are from 1 to [`FORMS_LIMIT`](crate::FORMS_LIMIT) forms.
pub fn counts_are_within()
    ensures { CountsAreWithin }
{}
