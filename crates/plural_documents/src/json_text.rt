//! The JSON value that bytes write.

ghost use Rattle.plural_documents.specs.Inputs.{GivesJson};

use document_tokens::JsonTextError;
use serde_json::Value;
use std::alloc::Global;

/// Returns the JSON value that the bytes write. It allocates.
///
/// The errors: [`JsonTextError::Json`] if the bytes aren't a JSON text, as if they aren't UTF-8;
/// [`JsonTextError::Memory`] if memory ran out, which it doesn't for no bytes.
pub fn json_value(alloc: Global, bytes: &[u8]) -> Result<Value, JsonTextError>
    ensures { GivesJson bytes.now result }
{
    match Value::from_slice(alloc, bytes) {
        Ok(value) => Ok(value),
        Err(fault) => {
            if fault.is_memory() {
                Err(JsonTextError::Memory)
            } else {
                Err(JsonTextError::Json)
            }
        }
    }
}
