//! Laws of the definitions that the contracts name.

ghost use Rattle.format_arguments.specs.CutTexts.{ArgumentsStandInOrder, ArgumentsHaveOneReading};

/// A text is read in one way: it has at most one list of arguments, and one fault or none.
pub fn one_reading()
    ensures { ArgumentsHaveOneReading }
{}

/// The arguments of a text stand in it one after the other: each begins behind the one before it, and
/// none ends behind the text.
pub fn arguments_stand_in_order()
    ensures { ArgumentsStandInOrder }
{}
