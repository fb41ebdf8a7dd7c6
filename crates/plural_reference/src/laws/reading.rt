//! What a text is read as is determined.

ghost use Rattle.plural_reference.specs.ReadingLaws.{HaveOneCut, HaveOneListOfTokens, HaveOneReading, HaveOneRule, TextsAreRead};

/// Every text is cut into pieces in exactly one way.
pub fn one_cut()
    ensures { HaveOneCut }
{}

/// Every text has exactly one list of tokens.
pub fn one_list_of_tokens()
    ensures { HaveOneListOfTokens }
{}

/// From every list of tokens exactly one condition is read, or it has exactly one fault.
pub fn one_reading()
    ensures { HaveOneReading }
{}

/// From every list of tokens exactly one rule is read, or it has exactly one fault.
pub fn one_rule()
    ensures { HaveOneRule }
{}

/// The condition of the rule that a text is, or the text's fault, is what a reader gives that is a
/// function of the text: readers of documents are stated by it.
pub fn texts_are_read()
    ensures { TextsAreRead }
{}
