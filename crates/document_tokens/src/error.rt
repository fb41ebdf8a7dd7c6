//! Why there are no tokens.

/// Why bytes have no JSON value.
#[derive(Clone, Copy, Debug, PartialEq, Eq)]
pub enum JsonTextError {
    /// They are no JSON text, as `serde_json` reads it.
    Json,
    /// Out of memory.
    Memory,
}
