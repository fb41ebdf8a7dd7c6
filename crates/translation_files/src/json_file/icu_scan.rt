//! Which texts are patterns of ICU with plural forms.

use crate::json_file::argument_head::begins_plural;

// Whether a text has the head of a plural or ordinal argument, as `{n, plural,`.
pub(crate) fn has_plural(text: &str) -> bool {
    let mut rest = text.as_bytes();
    while let [first, after @ ..] = rest {
        if *first == b'{' && begins_plural(after) {
            return true;
        }
        rest = after;
    }
    false
}
