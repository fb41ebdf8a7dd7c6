//! A catalogue of messages.

ghost use Rattle.std.specs.Prelude.{◌≡◌, ◌↔◌, ◌==◌, List, length, slice_get, option_map, IfOk, Ok, Err, Some, None};
ghost use Rattle.message_pattern.specs.PatternParts.{Part as SpecPart};
ghost use Rattle.message_format.specs.FormatArguments.{named_values_view};
ghost use Rattle.message_format.specs.FormatMeaning.{SaysExactly};
ghost use Rattle.message_format.specs.Inner.FormatViews.{two_rules};
ghost use Rattle.message_catalog.specs.CatalogMessages.{Message, MessageBlock, parts_under, said_of};
ghost use Rattle.message_catalog.specs.MessageFaults.{HasMessageFault};

use crate::checking::first_bad;
use crate::error::{MessageCatalogError, SayError};
use message_format::{Argument, Rules};
use packed_catalog::PackedCatalog;
use packed_format::format_packed;
use packed_pattern::PackedPattern;
use packed_pattern::laws::read_again;
use std::alloc::Global;
use std::marker::Model;

/// Messages by key, borrowed from the bytes that they are packed in: a packed catalogue whose values
/// are packed patterns.
#[derive(Debug, Drop)]
pub struct MessageCatalog<'a> {
    catalog: PackedCatalog<'a>,
}

impl<'a> Model for MessageCatalog<'a> {
    ghost use Rattle.std.specs.Prelude.{List};
    ghost use Rattle.message_catalog.specs.CatalogMessages.{Message};

    ghost Value = { List Message };

    ghost use Rattle.message_catalog.specs.Inner.MessageReading.{ArePatterns, messages_in};

    ghost view = { λ messages. messages_in messages.catalog };

    ghost invariant = { λ messages. ArePatterns messages.catalog };
}

impl<'a> MessageCatalog<'a> {
    /// Reads bytes as a catalogue of messages, in time linear in their number. It allocates nothing.
    ///
    /// The error is that the bytes aren't a packed catalogue ([`MessageCatalogError::Catalog`]), or
    /// else the first entry whose value isn't a packed pattern ([`MessageCatalogError::Pattern`]).
    pub fn parse_bytes(bytes: &'a [u8]) -> Result<MessageCatalog<'a>, MessageCatalogError>
        ensures ok { IfOk result (λ catalog. MessageBlock catalog bytes.now) }
        ensures accepted { (messages : List Message) → MessageBlock messages bytes.now → result ≡ Ok messages }
        ensures refused { (fault : MessageCatalogError) → (result ≡ Err fault) ↔ HasMessageFault bytes.now fault }
    {
        read_again();
        let catalog = match PackedCatalog::parse_bytes(bytes) {
            Ok(catalog) => catalog,
            Err(fault) => return Err(MessageCatalogError::Catalog(fault)),
        };
        if let Some((index, fault)) = first_bad(&catalog) {
            return Err(MessageCatalogError::Pattern(index, fault));
        }
        Ok(MessageCatalog { catalog })
    }

    /// Returns the bytes that the catalogue is packed in.
    #[inline]
    pub fn as_bytes(&self) -> &'a [u8]
        ensures { MessageBlock self.now result.now }
    {
        self.catalog.as_bytes()
    }

    /// Returns the number of messages.
    #[inline]
    pub fn len(&self) -> usize
        ensures { result ≡ length self.now }
    {
        self.catalog.len()
    }

    /// Returns whether the catalogue has no message.
    #[inline]
    pub fn is_empty(&self) -> bool
        ensures { result ≡ (length self.now == 0) }
    {
        self.len() == 0
    }

    /// Returns the key of the message at a place.
    #[inline]
    pub fn key(&self, index: usize) -> Option<&'a [u8]>
        ensures { option_map (λ key. key.now) result ≡ option_map (λ message. message.key) (slice_get self.now index) }
    {
        self.catalog.key(index)
    }

    /// Returns the pattern under a key. It finds the key as [`PackedCatalog::get`] does, and reads
    /// nothing of the pattern.
    pub fn pattern(&self, key: &[u8]) -> Option<PackedPattern<'a>>
        ensures { result ≡ parts_under key.now self.now }
    {
        read_again();
        match self.catalog.get(key) {
            Some(value) => Some(PackedPattern::from_checked(value)),
            None => None,
        }
    }

    /// Returns what the message under a key says with its arguments, under the rules of a language,
    /// as [`format_packed`] does of its pattern, with its errors ([`SayError::Format`]). Besides, no
    /// message may have the key ([`SayError::NoKey`]).
    pub fn say(
        &self,
        alloc: Global,
        key: &[u8],
        arguments: &[Argument<'_>],
        rules: &Rules<'_, '_>,
    ) -> Result<Vec<u8>, SayError<'a>>
        ensures no_key { (result ≡ Err SayError.NoKey) ↔ (parts_under key.now self.now ≡ None) }
        ensures says { (parts : List SpecPart) → parts_under key.now self.now ≡ Some parts
            → SaysExactly (named_values_view arguments.now) (two_rules rules.now) parts (said_of result) }
    {
        let Some(pattern) = self.pattern(key) else {
            return Err(SayError::NoKey);
        };
        match format_packed(alloc, &pattern, arguments, rules) {
            Ok(said) => Ok(said),
            Err(error) => Err(SayError::Format(error)),
        }
    }
}
