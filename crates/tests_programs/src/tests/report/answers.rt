//! The answer to a document.

use crate::tests::awaits::{awaiting, awaits_fault};
use document_report::CheckError;
use document_report::run::run;
use std::alloc::Global;
use std::io::Read;

// Returns whether the line has the fault's status and text.
pub(crate) fn is_told(fault: &CheckError, line: &str) -> bool {
    awaits_fault(awaiting(line), fault.status(), fault)
}

// Returns whether this is the answer: the report, whose status is 0 if it counts no fault, or the
// status and the text of a fault. `None` if memory ran out and nothing was written. The writer
// isn't flushed.
pub(crate) fn gives<R: Read>(
    alloc: Global,
    has_words: bool,
    reader: &mut R,
    answer: &str,
) -> Option<bool> {
    let mut writer = awaiting(answer);
    match run(alloc, has_words, reader, &mut writer) {
        Ok(verdict) => {
            let has_faults = !answer.ends_with("faults: 0\n");
            let status = u8::from(has_faults);
            Some(writer.is_done() && verdict.status() == status)
        }
        Err(CheckError::Memory) if writer.is_untouched(answer.len()) => None,
        Err(fault) => Some(awaits_fault(writer, fault.status(), &fault)),
    }
}
