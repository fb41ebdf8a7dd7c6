//! The answer to a command.

use crate::tests::awaits::{awaiting, awaits_fault};
use plural_commands::RunError;
use plural_commands::run::run;
use std::alloc::Global;
use std::io::Read;

// Returns whether the line has the fault's status and text.
pub(crate) fn is_told(fault: &RunError, line: &str) -> bool {
    awaits_fault(awaiting(line), fault.status(), fault)
}

// Returns whether this is the answer to the words: what is printed, or the status and the text of a
// fault. `None` if memory ran out and nothing was written. The writer isn't flushed.
pub(crate) fn gives<R: Read>(
    alloc: Global,
    words: &[&str],
    reader: &mut R,
    answer: &str,
) -> Option<bool> {
    let mut writer = awaiting(answer);
    match run(alloc, words, reader, &mut writer) {
        Ok(()) => Some(writer.is_done()),
        Err(RunError::Memory) if writer.is_untouched(answer.len()) => None,
        Err(fault) => Some(awaits_fault(writer, fault.status(), &fault)),
    }
}
