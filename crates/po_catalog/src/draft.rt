//! The message that is being read.

ghost use Rattle.std.specs.Prelude.{◌≡◌, ◌<◌, length, map, option_map, IfOk, OnOk};
ghost use Rattle.po_catalog.specs.Catalogs.{message_view, text_view};
ghost use Rattle.po_catalog.specs.Drafts.{ends_before, field_at, first_other, form_place, has_id, is_text_of_other_bytes, line_if_other, next_form, other_line, passed_over, place_of_keyword, plural_place, with_text};
ghost use Rattle.po_catalog.specs.Inner.DraftViews.{GoesOnIn, field_view};

use crate::bytes::is_utf8;
use crate::entry::{Entry, Text};
use crate::fault::{Cause, ReadError};
use crate::front::Keyword;
use crate::quoted::push_text;
use std::alloc::{AllocError, Global};

// Where a text goes.
#[derive(Clone, Copy)]
pub(crate) enum Place {
    Nowhere,
    Context,
    Id,
    PluralId,
    Form,
}

// A text that is being read.
#[derive(Drop)]
pub(crate) struct Field {
    pub(crate) place: Place,
    pub(crate) text: Text,
    // Whether there was a text, maybe an empty one.
    pub(crate) is_given: bool,
}

impl Field {
    // A text that goes somewhere.
    pub(crate) fn new(alloc: Global, place: Place, line: usize) -> Self
        ensures { field_view result ≡ field_at place line }
    {
        Field {
            place,
            text: Text::new(alloc, line),
            is_given: false,
        }
    }

    // A text that is passed over.
    pub(crate) fn nowhere(alloc: Global) -> Self
        ensures { field_view result ≡ passed_over }
    {
        Field {
            place: Place::Nowhere,
            text: Text::new(alloc, 0),
            is_given: true,
        }
    }

    // Adds a text from behind its first quotation mark on. Returns what follows it.
    pub(crate) fn read_text<'l>(&mut self, line: &'l [u8]) -> Result<&'l [u8], ReadError>
        ensures said { GoesOnIn line.now (field_view self.old) (field_view self.new) result }
        ensures shorter { IfOk result (λ rest. length rest.now < length line.now) }
    {
        self.is_given = true;
        push_text(line, &mut self.text.bytes)
    }
}

impl Text {
    // Whether its bytes are no UTF-8.
    fn is_other(&self) -> bool
        ensures { result ≡ is_text_of_other_bytes (text_view self.now) }
    {
        !is_utf8(&self.bytes)
    }
}

// The line of a text, if its bytes are no UTF-8.
fn line_if_other(text: &Option<Text>) -> Option<usize>
    ensures { result ≡ line_if_other (option_map text_view text.now) }
{
    match text {
        Some(text) if text.is_other() => Some(text.line),
        _ => None,
    }
}

// The line of the first of the texts whose bytes are no UTF-8.
#[tactic(auto, using(crate::proofs::OtherTexts::other_here, crate::proofs::OtherTexts::other_later, crate::proofs::OtherTexts::other_nowhere))]
fn first_other(texts: &[Text]) -> Option<usize>
    ensures { result ≡ first_other (map text_view texts.now) }
{
    for text in texts {
        if text.is_other() {
            return Some(text.line);
        }
    }
    None
}

impl Entry {
    // The line of the first text whose bytes are no UTF-8.
    pub(crate) fn other_line(&self) -> Option<usize>
        ensures { result ≡ other_line (message_view self.now) }
    {
        line_if_other(&self.context)
            .or(line_if_other(&self.id))
            .or(line_if_other(&self.plural_id))
            .or(first_other(&self.forms))
    }

    // Takes a text.
    pub(crate) fn take(&mut self, place: Place, text: Text) -> Result<(), AllocError>
        ensures { OnOk result (message_view self.new ≡ with_text place (text_view text) (message_view self.old)) }
    {
        match place {
            Place::Nowhere => (),
            Place::Context => self.context = Some(text),
            Place::Id => self.id = Some(text),
            Place::PluralId => self.plural_id = Some(text),
            Place::Form => self.forms.push(text)?,
        }
        Ok(())
    }

    // Whether the keyword begins another message.
    pub(crate) fn ends_before(&self, keyword: Keyword) -> bool
        ensures { result ≡ ends_before keyword (message_view self.now) }
    {
        match keyword {
            Keyword::Domain => true,
            Keyword::Context => self.context.is_some() || self.has_id(),
            Keyword::Id => self.has_id(),
            Keyword::PluralId | Keyword::Form(_) => false,
        }
    }

    // Whether a text of the message stands that is behind its context.
    fn has_id(&self) -> bool
        ensures { result ≡ has_id (message_view self.now) }
    {
        self.id.is_some() || (self.plural_id.is_some() || !self.forms.is_empty())
    }

    // Where the text of the keyword goes.
    pub(crate) fn place_of(&self, keyword: Keyword) -> Result<Place, Cause>
        ensures { result ≡ place_of_keyword keyword (message_view self.now) }
    {
        match keyword {
            Keyword::Domain => Ok(Place::Nowhere),
            Keyword::Context => Ok(Place::Context),
            Keyword::Id => Ok(Place::Id),
            Keyword::PluralId => self.plural_place(),
            Keyword::Form(index) => self.form_place(index),
        }
    }

    // Where the text of `msgid_plural` goes.
    fn plural_place(&self) -> Result<Place, Cause>
        ensures { result ≡ plural_place (message_view self.now) }
    {
        if self.id.is_some() && (self.plural_id.is_none() && self.forms.is_empty()) {
            Ok(Place::PluralId)
        } else {
            Err(Cause::StrayPluralId)
        }
    }

    // Where the text of `msgstr` goes.
    fn form_place(&self, index: Option<usize>) -> Result<Place, Cause>
        ensures { result ≡ form_place index (message_view self.now) }
    {
        if self.id.is_none() {
            return Err(Cause::FormWithoutId);
        }
        self.next_form(index)
    }

    // Where the text of `msgstr` goes behind `msgid`.
    fn next_form(&self, index: Option<usize>) -> Result<Place, Cause>
        ensures { result ≡ next_form index (message_view self.now) }
    {
        match index {
            None if self.plural_id.is_some() => Err(Cause::FormWithoutIndex),
            None if !self.forms.is_empty() => Err(Cause::SecondForm),
            Some(_) if self.plural_id.is_none() => Err(Cause::IndexWithoutPluralId),
            Some(index) if index != self.forms.len() => Err(Cause::WrongIndex),
            _ => Ok(Place::Form),
        }
    }
}
