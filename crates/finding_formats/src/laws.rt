//! Laws of lines of JSON, and of the rules of a log: each is the contract of a function.

ghost use Rattle.finding_formats.specs.FindingCodes.{PlacesPickRules};
ghost use Rattle.finding_formats.specs.JsonLineLaws.{LinesTellFindings};
ghost use Rattle.finding_formats.specs.LocatedLineLaws.{LinesTellLocated};

/// The lines of JSON tell what was found: the same lines are printed only for the same findings in
/// the same order, and the same counts. The bytes of patterns in their places have to be texts, as
/// those of a pattern's text are.
pub fn lines_tell_findings()
    ensures { LinesTellFindings }
{}

/// The lines of JSON tell what is told of files: the same lines are printed only for the same list,
/// lines and placeholders with it, and the same totals. Of findings the bytes of patterns have to be
/// texts, as above.
pub fn lines_tell_located()
    ensures { LinesTellLocated }
{}

/// The place of a code in the list of rules is that of its rule: `ruleIndex` picks the rule that
/// `ruleId` names.
pub fn places_pick_rules()
    ensures { PlacesPickRules }
{}
