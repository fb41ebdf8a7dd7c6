//! The texts of a JSON file, by their keys.

use crate::json_file::key_tree::{KeyTree, ROOT};
use crate::json_file::members::{Member, MemberValue, Members};
use crate::pushed::push;
use json::Scratch;
use std::alloc::{AllocError, Global};

// A text, at the place of its key.
#[derive(Clone, Copy)]
pub(crate) struct JsonText<'a> {
    pub(crate) place: usize,
    pub(crate) text: &'a str,
    pub(crate) line: u64,
}

// A key of a value.
#[derive(Clone, Copy)]
pub(crate) struct KeyLine {
    pub(crate) place: usize,
    pub(crate) line: u64,
}

// The texts of a file, in their order; of a key that stands twice, the first one. Null is an empty
// one.
#[derive(Drop)]
pub(crate) struct JsonTexts<'a> {
    pub(crate) keys: KeyTree<'a>,
    pub(crate) texts: Vec<JsonText<'a>>,
    // The values that are no texts, such as arrays.
    pub(crate) others: Vec<KeyLine>,
    // The keys that stand again.
    pub(crate) repeated: Vec<KeyLine>,
    // What `@@locale` says.
    pub(crate) locale: Option<&'a str>,
    // The places of the objects around the next member.
    open: Vec<usize>,
}

// Whether a key is that of a note on a message, or on the file, as ARB has them.
fn is_note(key: &str) -> bool {
    key.starts_with("@")
}

impl<'a> JsonTexts<'a> {
    // No text yet.
    pub(crate) fn new(alloc: Global) -> JsonTexts<'a> {
        JsonTexts {
            keys: KeyTree::new(alloc),
            texts: Vec::new(alloc),
            others: Vec::new(alloc),
            repeated: Vec::new(alloc),
            locale: None,
            open: Vec::new(alloc),
        }
    }

    // Takes the texts of a JSON text.
    pub(crate) fn fill(
        &mut self,
        text: &'a str,
        scratch: &'a mut Scratch,
    ) -> Result<(), AllocError> {
        match Members::of(text, scratch) {
            Ok(members) => self.take_all(members),
            Err(error) => Err(error),
        }
    }

    // Takes members, one after the other.
    fn take_all(&mut self, members: Members<'a>) -> Result<(), AllocError> {
        let mut members = members;
        while let Some(member) = members.next() {
            if !is_note(member.key) {
                self.take(member)?;
            } else if let MemberValue::Object = member.value {
                members.pass_object();
            } else {
                self.take_note(member);
            }
        }
        Ok(())
    }

    // Takes what a note says of the file.
    fn take_note(&mut self, note: Member<'a>) {
        if note.depth == 0 && note.key == "@@locale" && self.locale.is_none() {
            if let MemberValue::Text(locale) = note.value {
                self.locale = Some(locale);
            }
        }
    }

    // Takes a member.
    fn take(&mut self, member: Member<'a>) -> Result<(), AllocError> {
        self.open.truncate(member.depth);
        let parent = self.open.last().copied().unwrap_or(ROOT);
        match member.value {
            MemberValue::Object => {
                let place = self.keys.place_of(parent, member.key)?;
                push(&mut self.open, place)
            }
            MemberValue::Text(text) => self.take_text(parent, member, text),
            MemberValue::Null => self.take_text(parent, member, ""),
            MemberValue::Other => {
                let place = self.keys.place_of(parent, member.key)?;
                let line = member.line;
                push(&mut self.others, KeyLine { place, line })
            }
        }
    }

    // Takes a text.
    fn take_text(
        &mut self,
        parent: usize,
        member: Member<'a>,
        text: &'a str,
    ) -> Result<(), AllocError> {
        let place = self.keys.place_of(parent, member.key)?;
        let line = member.line;
        if self.keys.keep_line(place, line) {
            push(&mut self.texts, JsonText { place, text, line })
        } else {
            push(&mut self.repeated, KeyLine { place, line })
        }
    }
}
