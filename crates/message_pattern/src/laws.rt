//! Laws of the definitions that the contracts name.

ghost use Rattle.message_pattern.specs.PatternAnswers.{EveryTextIsRead, AreReadOneWay, PatternsAreStyled};
ghost use Rattle.message_pattern.specs.PatternPrinting.{HaveOnePrintedText, PatternsPrintBack};
ghost use Rattle.message_pattern.specs.StyledParts.{TextsAreTakenApart, UnstyledPrintsBack};

/// A text is read in at most one way: it has one list of parts, or one first fault, and never both;
/// likewise where simple formats are read.
pub fn one_reading()
    ensures { AreReadOneWay }
{}

/// Every text is a pattern, or has a first fault.
pub fn every_text_is_read()
    ensures { EveryTextIsRead }
{}

/// The parts of each pattern are printed as a text, and that text is read as a pattern that says
/// the same: the same pieces at the same depths, but for where texts are cut into pieces.
pub fn patterns_print_back()
    ensures { PatternsPrintBack }
{}

/// Parts that say the same are printed as the same text.
pub fn one_printed_text()
    ensures { HaveOnePrintedText }
{}

/// A pattern is one with simple formats, too, and has the same parts.
pub fn patterns_are_styled()
    ensures { PatternsAreStyled }
{}

/// What [`StyledArgument::of`](crate::StyledArgument::of) finds in the text between the braces of an
/// argument is what the grammar finds there: its name, and the type and the style of its format.
pub fn texts_are_taken_apart()
    ensures { TextsAreTakenApart }
{}

/// Without its simple formats, a pattern prints as a text that is read as a pattern that says the
/// same: what [`StyledPattern::into_pattern`](crate::StyledPattern::into_pattern) returns is one.
pub fn unstyled_prints_back()
    ensures { UnstyledPrintsBack }
{}
