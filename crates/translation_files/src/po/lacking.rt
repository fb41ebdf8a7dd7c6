//! Forms that lack the number, of which no category tells it.

use crate::code::NoticeCode;
use crate::gathered::Gathered;
use crate::po::measure::Measure;
use crate::po::message::line_of;
use crate::po::mistakes::shown_argument;
use crate::po::sides::Sides;
use crate::po::source_number::find_name;
use po_catalog::Entry;

// Tells the forms of several numbers that lack the number, given their texts with `{}` for it: each of
// these numbers is the only one of a category, or of a form of its own, or the message has a range.
pub(crate) fn tell_lacking(
    gathered: &mut Gathered,
    entry: &Entry,
    sides: &Sides<'_, '_>,
    measure: Measure<'_>,
    texts: &[String],
) {
    for (index, text) in texts.iter().enumerate() {
        if lacks_number(text.as_str()) && !measure.tells_number(index as u64) {
            tell_if_several(gathered, entry, sides, measure, index);
        }
    }
}

// Whether there is a text without the number.
fn lacks_number(text: &str) -> bool {
    !text.is_empty() && !text.contains("{}")
}

// Tells a form that lacks the number, if several numbers have it.
fn tell_if_several(
    gathered: &mut Gathered,
    entry: &Entry,
    sides: &Sides<'_, '_>,
    measure: Measure<'_>,
    index: usize,
) {
    let Some(number) = sides.number else {
        return;
    };
    let Some(indices) = measure.indices() else {
        return;
    };
    let Some(argument) = find_name(sides.kept, &number) else {
        return;
    };
    if let Some((one, other)) = indices.least_two(index as u64) {
        let shown = shown_argument(sides.texts.plural, argument);
        gathered.tell(
            line_of(entry, index),
            NoticeCode::NoNumber,
            format_args!(
                "msgstr[{index}] has no {shown}, but {one} and {other} have this form: write it"
            ),
        );
    }
}
