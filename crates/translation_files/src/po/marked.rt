//! Texts with `{}` for the number.

use crate::po::read_text::Read;
use crate::po::sides::Sides;
use std::alloc::AllocError;
use std::str;

// Appends the text of a form with `{}` for its number, and `{ }` for any other `{}`.
pub(crate) fn push_marked(
    text: &mut String,
    form: &Read<'_>,
    sides: &Sides<'_, '_>,
) -> Result<(), AllocError> {
    let mut end = 0usize;
    for it in form.items.iter() {
        if sides.is_marked(it) {
            push_plain(text, form.text.get(end..it.start).unwrap_or(b""))?;
            text.push_str("{}")?;
            end = it.end;
        }
    }
    push_plain(text, form.text.get(end..).unwrap_or(b""))
}

// Appends a text, with `{ }` for any `{}`.
pub(crate) fn push_plain(text: &mut String, bytes: &[u8]) -> Result<(), AllocError> {
    let mut is_first = true;
    for part in str::from_utf8(bytes).unwrap_or("").split("{}") {
        if !is_first {
            text.push_str("{ }")?;
        }
        is_first = false;
        text.push_str(part)?;
    }
    Ok(())
}
