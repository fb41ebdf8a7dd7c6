//! The text of an element with a number in the place of each `{}`.

ghost use Rattle.std.specs.Prelude.{IfOk, string_bytes};
ghost use Rattle.plural_message.specs.Messages.{IsFilling};

use std::alloc::{AllocError, Global};

// The text, with the number's in the place of each `{}`, from the left.
pub(crate) fn fill(alloc: Global, text: &str, number: &str) -> Result<String, AllocError>
    ensures { IfOk result (λ filled. IsFilling number.now text.now (string_bytes filled)) }
{
    // Room for one number, all that most texts need: it is made once, and only more of them let the
    // text grow again.
    let mut filled = String::with_capacity(alloc, text.len() + number.len())?;
    // A placeholder ends a piece, since each piece but the last ends at a `}`: one character is
    // sought faster than two.
    for piece in text.split_inclusive('}') {
        match piece.strip_suffix("{}") {
            Some(before) => {
                filled.push_str(before)?;
                filled.push_str(number)?;
            }
            None => filled.push_str(piece)?,
        }
    }
    Ok(filled)
}
