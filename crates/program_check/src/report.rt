//! The report of a document, over any reader.

use crate::failure::Failure;
use document_formats::NotedFormat;
use document_notes::run::write_noted;
use document_report::{CheckError, Verdict};
use finding_formats::Format;
use plural_documents::read_input;
use serde_json::Value;
use std::alloc::Global;
use std::io::Read;

// How reports are written: in which format, and whether notes are faults.
#[derive(Clone, Copy)]
pub(crate) struct Way {
    pub(crate) format: Format,
    pub(crate) is_strict: bool,
}

// Writes the report of the document in a reader, which is that of a file if it has a name.
pub(crate) fn write_report<R: Read>(
    rt: &HostRuntime,
    way: Way,
    file: Option<&str>,
    reader: &mut R,
) -> Result<Verdict, Failure> {
    let bytes = match read_input(rt.alloc(), reader) {
        Ok(bytes) => bytes,
        Err(fault) => return Err(Failure::from(CheckError::from(fault))),
    };
    let bytes = bytes.as_slice();
    let Way { format, is_strict } = way;
    let printer = NotedFormat {
        file,
        format,
        is_strict,
    };
    match write_noted(rt.alloc(), &printer, is_strict, bytes, &mut rt.stdout()) {
        Ok(verdict) => Ok(verdict),
        Err(CheckError::Json) => Err(no_json(rt.alloc(), bytes)),
        Err(error) => Err(Failure::from(error)),
    }
}

// Where bytes are no JSON text.
fn no_json(alloc: Global, bytes: &[u8]) -> Failure {
    match Value::from_slice(alloc, bytes) {
        Err(fault) if !fault.is_memory() => Failure::Json(fault.line(), fault.column()),
        _ => Failure::from(CheckError::Json),
    }
}
