//! Why patterns of a document are no catalogue.

use message_catalog::TextFault;
use packed_catalog::PackCatalogError;

/// Why no catalogue is made of the patterns of a document. The keys are those of the document.
#[derive(Clone, Copy, Debug)]
pub enum PatternsFault<'a> {
    /// The patterns aren't an object.
    NoObject,
    /// The value under this key isn't a text.
    NoText(&'a str),
    /// What is wrong with the text under this key.
    Message(&'a str, TextFault),
    /// The keys and the packed patterns can't be packed as a catalogue, and why.
    Catalog(PackCatalogError),
    /// Out of memory.
    Memory,
}
