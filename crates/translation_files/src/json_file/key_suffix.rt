//! The suffixes of i18next's keys, as `files_one` and `files_ordinal_few`.

use icu_plurals::PluralCategory;

// A key with a suffix.
#[derive(Clone, Copy)]
pub(crate) struct SuffixedKey<'a> {
    // What stands before the suffix.
    pub(crate) base: &'a str,
    pub(crate) is_ordinal: bool,
    pub(crate) category: PluralCategory,
}

// The parts of a key whose last piece is this, if it has a suffix: something has to stand before
// that, in the piece or before it.
pub(crate) fn suffixed_key(is_outermost: bool, name: &str) -> Option<SuffixedKey<'_>> {
    let (front, category) = before_category(name)?;
    match front.strip_suffix("_ordinal") {
        Some(base) if !is_outermost || !base.is_empty() => Some(SuffixedKey {
            base,
            is_ordinal: true,
            category,
        }),
        _ if !is_outermost || !front.is_empty() => Some(SuffixedKey {
            base: front,
            is_ordinal: false,
            category,
        }),
        _ => None,
    }
}

// What stands before the suffix of a category, and the category.
fn before_category(name: &str) -> Option<(&str, PluralCategory)> {
    let (front, suffix) = name.rsplit_once('_')?;
    Some((front, PluralCategory::get_for_cldr_string(suffix)?))
}
