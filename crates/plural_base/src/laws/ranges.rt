//! Ranges that are written and read again.

ghost use Rattle.plural_base.specs.RangesJson.{WrittenRangesAreReadAgain};

/// The JSON value that ranges are written as means the same ranges: [`PluralRanges::from_json`]
/// returns what [`PluralRanges::to_json`] wrote.
///
/// [`PluralRanges::from_json`]: crate::PluralRanges::from_json
/// [`PluralRanges::to_json`]: crate::PluralRanges::to_json
pub fn written_ranges_are_read_again()
    ensures { WrittenRangesAreReadAgain }
{}
