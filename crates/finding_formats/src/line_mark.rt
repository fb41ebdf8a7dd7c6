//! The number of a line, behind a mark.

ghost use Rattle.std.specs.Prelude.{◌≡◌, IfOk, string_bytes};
ghost use Rattle.finding_formats.specs.WorkflowCommands.{line_mark};

use std::alloc::{AllocError, Global};

// A mark and the number of a line, or nothing if none is known.
pub(crate) fn line_mark(alloc: Global, mark: &str, line: Option<u64>) -> Result<String, AllocError>
    ensures { IfOk result (λ text. string_bytes text ≡ line_mark mark.now line) }
{
    match line {
        Some(line) => format!(in alloc; "{mark}{line}"),
        None => Ok(String::new(alloc)),
    }
}
