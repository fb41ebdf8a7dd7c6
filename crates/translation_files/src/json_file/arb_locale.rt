//! The locale in the name of an ARB file, as `app_pt_BR.arb`.

use crate::locale_name::{is_named, text_of};
use message_report::RulesOfLocales;

// How many underscores of a name are looked behind.
const MOST_PARTS: usize = 8;

// What stands behind an underscore in the name of an ARB file, if that is a locale whose language
// has rules.
pub(crate) fn locale_of_name<'n, S: RulesOfLocales>(file: &'n str, rules: &S) -> Option<&'n str> {
    let mut rest = last_part(file).strip_suffix(".arb")?.as_bytes();
    for _ in 0..MOST_PARTS {
        let (_, after) = text_of(rest).split_once('_')?;
        if is_named(after, rules) {
            return Some(after);
        }
        rest = after.as_bytes();
    }
    None
}

// What stands behind the folders of a file.
fn last_part(file: &str) -> &str {
    let mut last = file.as_bytes();
    for part in file.split('/') {
        last = part.as_bytes();
    }
    text_of(last)
}
