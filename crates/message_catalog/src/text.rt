//! What a catalogue of messages is made from.

/// A key, and the text of the pattern under it.
#[derive(Clone, Copy)]
pub struct MessageText<'a> {
    /// The key.
    pub key: &'a [u8],
    /// The text of the pattern.
    pub text: &'a [u8],
}
