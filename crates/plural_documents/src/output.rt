//! The bytes of an output.

ghost use Rattle.std.specs.Prelude.{OnErr, OnOk};
ghost use Rattle.std.specs.Io.KnownBytes.{Appends};
ghost use Rattle.plural_documents.specs.Inputs.{IsPartWritten};

use std::io::{ErrorKind, Write};

/// The writer failed.
#[derive(Clone, Copy, Debug, PartialEq, Eq)]
pub struct OutputError;

/// Writes the bytes, and doesn't flush. An interrupted write is repeated.
///
/// The error: the writer failed, or took nothing. Then what it took before is a beginning of the
/// bytes.
pub fn write_output<W: Write>(writer: &mut W, bytes: &[u8]) -> Result<(), OutputError>
    ensures written { OnOk result (Appends (W.contents writer.old) (W.contents writer.new) bytes.now) }
    ensures part { OnErr result (IsPartWritten (W.contents writer.old) (W.contents writer.new) bytes.now) }
{
    let mut rest = bytes;
    for _ in 0..u64::MAX {
        if rest.is_empty() {
            return Ok(());
        }
        match writer.write(rest) {
            Ok(0) => return Err(OutputError),
            Ok(count) => rest = &rest[count..],
            Err(fault) => {
                if fault.kind() != ErrorKind::Interrupted {
                    return Err(OutputError);
                }
            }
        }
    }
    Err(OutputError)
}
