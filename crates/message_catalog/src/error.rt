//! Why bytes are no catalogue of messages, why a message isn't said, and why messages can't be packed.

use message_format::FormatError;
use message_pattern::FaultKind;
use packed_catalog::{CatalogError, PackCatalogError};
use packed_pattern::{BlockError, PackPatternError};
use std::alloc::{AllocError, AllocFailed};
use std::error::Error;
use std::fmt;

/// Why bytes aren't a catalogue of messages.
#[derive(Clone, Copy, Debug, PartialEq, Eq)]
pub enum MessageCatalogError {
    /// The bytes aren't a packed catalogue, and why.
    Catalog(CatalogError),
    /// The value of the entry at this place isn't a packed pattern, and why.
    Pattern(usize, BlockError),
}

impl fmt::Display for MessageCatalogError {
    ghost use Rattle.std.specs.Prelude.{Some};
    ghost use Rattle.message_catalog.specs.MessageTexts.{message_catalog_error_text};

    ghost output = { λ error. Some (message_catalog_error_text error) };

    fn fmt<W: fmt::Write>(&self, f: &mut fmt::Formatter<W>) -> fmt::Result {
        match self {
            MessageCatalogError::Catalog(fault) => write!(f, "{fault}"),
            MessageCatalogError::Pattern(place, fault) => write!(f, "entry {place}: {fault}"),
        }
    }
}

impl Error for MessageCatalogError {}

/// Why [`MessageCatalog::say`](crate::MessageCatalog::say) returns no text.
#[derive(Clone, Copy, Debug)]
pub enum SayError<'p> {
    /// No message has the key.
    NoKey,
    /// The message has a fault with these arguments, or memory ran out.
    Format(FormatError<'p>),
}

impl<'p> fmt::Display for SayError<'p> {
    ghost use Rattle.std.specs.Prelude.{Some};
    ghost use Rattle.message_catalog.specs.MessageTexts.{say_error_text};

    ghost output = { λ error. Some (say_error_text error) };

    fn fmt<W: fmt::Write>(&self, f: &mut fmt::Formatter<W>) -> fmt::Result {
        match self {
            SayError::NoKey => f.write_str("no message has the key"),
            SayError::Format(error) => write!(f, "{error}"),
        }
    }
}

impl<'p> Error for SayError<'p> {}

/// What is wrong with the text of a pattern that is to be packed.
#[derive(Clone, Copy, Debug)]
pub enum TextFault {
    /// The text isn't a pattern: the kind of its first fault, and the byte where it is.
    Text(FaultKind, usize),
    /// The pattern can't be packed, and why.
    Pattern(PackPatternError),
}

impl fmt::Display for TextFault {
    ghost use Rattle.std.specs.Prelude.{Some};
    ghost use Rattle.message_catalog.specs.MessageTexts.{text_fault_text};

    ghost output = { λ fault. Some (text_fault_text fault) };

    fn fmt<W: fmt::Write>(&self, f: &mut fmt::Formatter<W>) -> fmt::Result {
        match self {
            TextFault::Text(kind, place) => write!(f, "{kind} at byte {place}"),
            TextFault::Pattern(error) => write!(f, "{error}"),
        }
    }
}

/// Why messages can't be packed.
#[derive(Clone, Copy, Debug)]
pub enum PackMessagesError {
    /// What is wrong with the text of the message at this place.
    Message(usize, TextFault),
    /// The keys and the packed patterns can't be packed as a catalogue, and why.
    Catalog(PackCatalogError),
    /// Out of memory.
    Memory,
}

impl fmt::Display for PackMessagesError {
    ghost use Rattle.std.specs.Prelude.{Some};
    ghost use Rattle.message_catalog.specs.MessageTexts.{pack_messages_error_text};

    ghost output = { λ error. Some (pack_messages_error_text error) };

    fn fmt<W: fmt::Write>(&self, f: &mut fmt::Formatter<W>) -> fmt::Result {
        match self {
            PackMessagesError::Message(place, fault) => write!(f, "message {place}: {fault}"),
            PackMessagesError::Catalog(error) => write!(f, "{error}"),
            PackMessagesError::Memory => f.write_str("out of memory"),
        }
    }
}

impl Error for PackMessagesError {}

impl<T: Drop> From<AllocFailed<T>> for PackMessagesError {
    ghost use Rattle.std.specs.Prelude.{◌≡◌};
    ghost use Rattle.message_catalog.specs.declared.error.PackMessagesError.TheVariants.{Memory};

    ghost from_gives = { λ _ error. error ≡ Memory };

    fn from(_error: AllocFailed<T>) -> Self {
        PackMessagesError::Memory
    }
}

impl From<AllocError> for PackMessagesError {
    ghost use Rattle.std.specs.Prelude.{◌≡◌};
    ghost use Rattle.message_catalog.specs.declared.error.PackMessagesError.TheVariants.{Memory};

    ghost from_gives = { λ _ error. error ≡ Memory };

    fn from(_error: AllocError) -> Self {
        PackMessagesError::Memory
    }
}
