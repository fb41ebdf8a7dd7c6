//! The printed texts of conditions.

ghost use Rattle.std.specs.Prelude.{◌≡◌, IfOk, string_bytes};
ghost use Rattle.plural_reference.specs.Serializer.{condition_text};

use plural_reference::ast::Condition;
use plural_reference::serialize_condition;
use std::alloc::{AllocError, Global};

// The text of a condition.
pub(crate) fn printed(alloc: Global, condition: &Condition) -> Result<String, AllocError>
    ensures { IfOk result (λ text. string_bytes text ≡ condition_text condition.now) }
{
    let mut text = String::new(alloc);
    match serialize_condition(condition, &mut text) {
        Ok(()) => Ok(text),
        Err(_) => Err(AllocError),
    }
}
