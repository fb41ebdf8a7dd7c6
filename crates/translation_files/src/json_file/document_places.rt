//! Where the messages of a document stand in its text.

use crate::json_file::members::{Member, Members};
use crate::lines::{FormLine, MessageKind, MessageLines};
use crate::places::Places;
use crate::pushed::push;
use icu_plurals::PluralCategory;
use json::Scratch;
use message_report::Form;
use std::alloc::{AllocError, Global};
use std::mem;

// The places of messages, as they are gathered.
#[derive(Drop)]
struct DocumentPlaces<'p, 'a> {
    alloc: Global,
    places: &'p mut Places,
    locale: &'a str,
    kind: Option<MessageKind>,
    message: Option<PlacedMessage<'a>>,
    // The lines of the forms of that message.
    lines: Vec<FormLine>,
    count: u64,
}

// The message whose forms are being read.
#[derive(Clone, Copy)]
struct PlacedMessage<'a> {
    kind: MessageKind,
    key: &'a str,
    line: u64,
}

// Adds where the messages of a document stand, whose text is JSON. Returns how many there are.
pub(crate) fn add_places(
    alloc: Global,
    text: &str,
    places: &mut Places,
) -> Result<u64, AllocError> {
    let mut scratch = Scratch::new(alloc);
    match Members::of(text, &mut scratch) {
        Ok(members) => count_places(alloc, members, places),
        Err(error) => Err(error),
    }
}

// Adds where the messages of some members stand. Returns how many there are.
fn count_places(
    alloc: Global,
    members: Members<'_>,
    places: &mut Places,
) -> Result<u64, AllocError> {
    let mut gathered = DocumentPlaces::new(alloc, places);
    let taken = take_members(&mut gathered, members);
    let count = gathered.count;
    drop(gathered);
    match taken {
        Ok(()) => Ok(count),
        Err(error) => Err(error),
    }
}

// Takes members, one after the other.
fn take_members<'a>(
    gathered: &mut DocumentPlaces<'_, 'a>,
    members: Members<'a>,
) -> Result<(), AllocError> {
    let mut members = members;
    while let Some(member) = members.next() {
        gathered.take(member)?;
    }
    gathered.end_message()
}

impl<'p, 'a> DocumentPlaces<'p, 'a> {
    // Nothing yet.
    fn new(alloc: Global, places: &'p mut Places) -> DocumentPlaces<'p, 'a> {
        DocumentPlaces {
            alloc,
            places,
            locale: "",
            kind: None,
            message: None,
            lines: Vec::new(alloc),
            count: 0,
        }
    }

    // Takes a member: a locale, a part, a message or a form.
    fn take(&mut self, member: Member<'a>) -> Result<(), AllocError> {
        if member.depth > 2 {
            return self.take_form(member);
        }
        self.end_message()?;
        match member.depth {
            0 => self.locale = member.key,
            1 => self.kind = kind_named(member.key),
            _ => self.begin_message(member),
        }
        Ok(())
    }

    // Begins a message.
    fn begin_message(&mut self, member: Member<'a>) {
        if let Some(kind) = self.kind {
            let key = member.key;
            let line = member.line;
            self.message = Some(PlacedMessage { kind, key, line });
        }
    }

    // Takes a form of the message.
    fn take_form(&mut self, member: Member<'a>) -> Result<(), AllocError> {
        if self.message.is_none() || member.depth > 3 {
            return Ok(());
        }
        match form_named(member.key) {
            Some(form) => {
                let line = member.line;
                push(&mut self.lines, FormLine { form, line })
            }
            None => Ok(()),
        }
    }

    // Keeps the place of the message that was read.
    fn end_message(&mut self) -> Result<(), AllocError> {
        let Some(message) = self.message else {
            return Ok(());
        };
        self.message = None;
        self.count = self.count.saturating_add(1);
        let lines = MessageLines {
            line: message.line,
            forms: mem::replace(&mut self.lines, Vec::new(self.alloc)),
            placeholder: None,
        };
        self.places
            .insert(self.alloc, self.locale, message.kind, message.key, lines)
    }
}

// The kind of the messages of a part; that of sources has none.
fn kind_named(part: &str) -> Option<MessageKind> {
    match part {
        "cardinal" => Some(MessageKind::Cardinal),
        "ordinal" => Some(MessageKind::Ordinal),
        "patterns" => Some(MessageKind::Pattern),
        _ => None,
    }
}

// The form of a key.
fn form_named(key: &str) -> Option<Form> {
    match key {
        "explicit_zero" => Some(Form::ExplicitZero),
        "explicit_one" => Some(Form::ExplicitOne),
        _ => match PluralCategory::get_for_cldr_string(key) {
            Some(category) => Some(Form::Category(category)),
            None => None,
        },
    }
}
