//! The bytes of an input.

ghost use Rattle.std.specs.Prelude.{◌≡◌, ◌+◌, ◌≤◌, List, ℕ, length, Err, IfOk};
ghost use Rattle.std.specs.Io.KnownBytes.{Consumes, IsAtEnd};
ghost use Rattle.plural_documents.specs.Inputs.{IsReadAfterResult, IsReadUpTo, GivesInput, input_origin};

use std::alloc::Global;
use std::io::{ErrorKind, Read};

// The most bytes that an input may have.
const MOST_BYTES: usize = 4_194_304;

/// Why there is no input.
#[derive(Clone, Copy, Debug, PartialEq, Eq)]
pub enum InputError {
    /// The reader failed.
    Read,
    /// The input has more than 4194304 bytes.
    TooLong,
    /// Out of memory.
    Memory,
}

/// Returns the input: all that remains in the reader. It allocates.
///
/// The errors: [`InputError::Read`] if the reader failed; [`InputError::TooLong`] if there are more
/// than 4194304 bytes, and then one more than these is read; [`InputError::Memory`] if memory ran
/// out. An interrupted read is repeated.
pub fn read_input<R: Read>(alloc: Global, reader: &mut R) -> Result<Vec<u8>, InputError>
    ensures input { GivesInput (R.remaining reader.old) result }
    ensures read { IsReadAfterResult input_origin (R.remaining reader.old) (R.remaining reader.new) result }
{
    read_bytes(alloc, reader)
}

// Reads to the end, or one byte past the limit.
fn read_bytes<R: Read>(alloc: Global, reader: &mut R) -> Result<Vec<u8>, InputError>
    ensures bytes { IfOk result (λ bytes. Consumes (R.remaining reader.old) (R.remaining reader.new) bytes.items) }
    ensures end { IfOk result (λ _. IsAtEnd (R.remaining reader.new)) }
    ensures limit { IfOk result (λ bytes. length bytes.items ≤ MOST_BYTES) }
    ensures up_to { IsReadUpTo (R.remaining reader.old) (R.remaining reader.new) }
    ensures too_long { result ≡ Err InputError.TooLong
        → (bytes : List ℕ) × Consumes (R.remaining reader.old) (R.remaining reader.new) bytes × (length bytes ≡ MOST_BYTES + 1) }
{
    let mut bytes = Vec::new(alloc);
    let mut chunk = [0u8; 4096];
    for _ in 0..u64::MAX {
        let room = chunk.len().min(MOST_BYTES + 1 - bytes.len());
        match reader.read(&mut chunk[..room]) {
            Ok(0) => return Ok(bytes),
            Ok(count) => {
                if bytes.extend_from_slice(&chunk[..count]).is_err() {
                    return Err(InputError::Memory);
                }
                if bytes.len() > MOST_BYTES {
                    return Err(InputError::TooLong);
                }
            }
            Err(fault) => {
                if fault.kind() != ErrorKind::Interrupted {
                    return Err(InputError::Read);
                }
            }
        }
    }
    Err(InputError::Read)
}
