//! The buffer that a caller passes for a result.

ghost use Rattle.std.specs.Prelude.{◌≡◌, length, pos};
ghost use Rattle.plural_exports.specs.Results.{filled_buffer};

// Writes the bytes at the front of the buffer, if they fit, and returns how many they are.
pub(crate) fn put(bytes: &[u8], out: &mut [u8]) -> i64
    ensures told { result ≡ pos (length bytes.now) }
    ensures written { out.new ≡ filled_buffer bytes.now out.old }
{
    if bytes.len() <= out.len() {
        out[..bytes.len()].copy_from_slice(bytes);
    }
    bytes.len() as i64
}
