//! What a catalogue is made from.

/// A key, and the value under it.
#[derive(Clone, Copy)]
pub struct CatalogEntry<'a> {
    /// The key.
    pub key: &'a [u8],
    /// The value.
    pub value: &'a [u8],
}
