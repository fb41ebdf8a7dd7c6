//! The tokens of a JSON text, read once.

ghost use Rattle.std.specs.Prelude.{Some, None};
ghost use Rattle.document_tokens.specs.TextTokens.{given_names, key_names_view};
ghost use Rattle.plural_documents.specs.Inner.OutlineSteps.{GivesTokens};
ghost use Rattle.plural_documents.specs.Outlines.{GivesHeldText};

use document_tokens::{HeldToken, JsonTextError, text_tokens};
use json::Scratch;
use std::alloc::Global;
use std::marker::Model;

/// A JSON text that was read once, and what is held of it: any outlines are made of this.
pub struct JsonTokens<'a> {
    text: &'a str,
    names: Option<&'a [&'a str]>,
    pub(crate) tokens: Vec<HeldToken<'a>>,
}

// Written out, so that each end of a value is one call.
impl Drop for JsonTokens<'_> {
    fn drop(self) {
        let JsonTokens {
            text: _,
            names: _,
            tokens: _,
        } = self;
    }
}

impl<'a> Model for JsonTokens<'a> {
    ghost use Rattle.std.specs.Prelude.{map};
    ghost use Rattle.document_tokens.specs.HeldTokens.{held_token};
    ghost use Rattle.document_tokens.specs.TextTokens.{given_names};
    ghost use Rattle.plural_documents.specs.Inner.OutlineSteps.{Holds};
    ghost use Rattle.plural_documents.specs.Outlines.{HeldText};

    ghost Value = { HeldText };

    ghost view = { λ read. record { bytes = read.text.now; names = given_names read.names } };

    ghost invariant = { λ read. Holds record { bytes = read.text.now; names = given_names read.names } (map held_token read.tokens.items) };
}

impl<'a> JsonTokens<'a> {
    /// Reads the text of the bytes, and holds all of its value; some texts are held in `scratch`. It
    /// allocates.
    ///
    /// The errors: [`JsonTextError::Json`] if the bytes aren't a JSON text, as `serde_json` reads it,
    /// as if they aren't UTF-8; [`JsonTextError::Memory`] if memory ran out, which it doesn't for no
    /// bytes.
    pub fn read(
        alloc: Global,
        bytes: &'a [u8],
        scratch: &'a mut Scratch,
    ) -> Result<JsonTokens<'a>, JsonTextError>
        ensures { GivesHeldText None bytes.now result }
    {
        read_by(alloc, None, bytes, scratch)
    }

    /// Reads the same, and of an object holds only the members with these names, as often as they
    /// stand there. The others are read too, so the errors are those of [`JsonTokens::read`]. It
    /// allocates.
    pub fn read_members(
        alloc: Global,
        names: &'a [&'a str],
        bytes: &'a [u8],
        scratch: &'a mut Scratch,
    ) -> Result<JsonTokens<'a>, JsonTextError>
        ensures { GivesHeldText (Some (key_names_view names.now)) bytes.now result }
    {
        read_by(alloc, Some(names), bytes, scratch)
    }
}

// The tokens of a text, with all that they hold.
pub(crate) fn tokens_of<'a>(
    alloc: Global,
    bytes: &'a [u8],
    scratch: &'a mut Scratch,
) -> Result<Vec<HeldToken<'a>>, JsonTextError>
    ensures { GivesTokens bytes.now result }
{
    match simdutf8::basic::from_utf8(bytes) {
        Ok(text) => text_tokens(alloc, None, text, scratch),
        Err(_) => Err(JsonTextError::Json),
    }
}

// Reads a text, and holds the members with these names, if any are given.
fn read_by<'a>(
    alloc: Global,
    names: Option<&'a [&'a str]>,
    bytes: &'a [u8],
    scratch: &'a mut Scratch,
) -> Result<JsonTokens<'a>, JsonTextError>
    ensures { GivesHeldText (given_names names.entry) bytes.now result }
{
    let Ok(text) = simdutf8::basic::from_utf8(bytes) else {
        return Err(JsonTextError::Json);
    };
    match text_tokens(alloc, names, text, scratch) {
        Ok(tokens) => Ok(JsonTokens {
            text,
            names,
            tokens,
        }),
        Err(fault) => Err(fault),
    }
}
