//! A message of a catalog, and its texts.

ghost use Rattle.std.specs.Prelude.{◌≡◌, ◌↔◌, codes, IsTrue, IsUtf8, MatchOption};
ghost use Rattle.std.specs.List.{Contains};
ghost use Rattle.po_catalog.specs.Catalogs.{message_view, text_view};
ghost use Rattle.po_catalog.specs.Drafts.{empty_message, empty_text};
ghost use Rattle.po_catalog.specs.PoBytes.{message_flags_of};
ghost use Rattle.po_catalog.specs.Headers.{is_header};

use crate::bytes::first_flag;
use std::alloc::Global;
use std::str;

/// A text of a message, as its escapes say it, and the line of its keyword, from 1 on.
#[derive(Debug, Drop)]
pub struct Text {
    pub line: usize,
    pub bytes: Vec<u8>,
}

impl Text {
    // An empty text.
    pub(crate) fn new(alloc: Global, line: usize) -> Self
        ensures { text_view result ≡ empty_text line }
    {
        Text {
            line,
            bytes: Vec::new(alloc),
        }
    }

    /// The text; `None` if its bytes are no UTF-8, which a fault of the catalog tells.
    pub fn as_str(&self) -> Option<&str>
        ensures { MatchOption result (¬ (IsUtf8 self.now.bytes.items)) (λ text. (text.now ≡ self.now.bytes.items) × IsUtf8 self.now.bytes.items) }
    {
        str::from_utf8(&self.bytes).ok()
    }
}

/// A message of a catalog, with what is written for it.
#[derive(Debug, Drop)]
pub struct Entry {
    /// The line of its first keyword, from 1 on.
    pub line: usize,
    /// The text of `msgctxt`.
    pub context: Option<Text>,
    /// The text of `msgid`; `None` if it is missing, and then the message is faulty.
    pub id: Option<Text>,
    /// The text of `msgid_plural`.
    pub plural_id: Option<Text>,
    /// The texts of `msgstr`: one if the message has no plural, else that of each index from 0 on.
    pub forms: Vec<Text>,
    /// The words of the comments `#,`, with a comma behind each.
    pub flags: Vec<u8>,
    /// Whether the message stands behind `#~`.
    pub is_obsolete: bool,
    /// Whether a fault is told of one of its lines, so that its texts may not be whole.
    pub is_faulty: bool,
}

impl Entry {
    // A message of which nothing is read.
    pub(crate) fn new(alloc: Global) -> Self
        ensures { message_view result ≡ empty_message }
    {
        Entry {
            line: 0,
            context: None,
            id: None,
            plural_id: None,
            forms: Vec::new(alloc),
            flags: Vec::new(alloc),
            is_obsolete: false,
            is_faulty: false,
        }
    }

    /// Whether the flag is one of the message's, as `c-format`.
    pub fn has_flag(&self, name: &[u8]) -> bool
        ensures { IsTrue result ↔ Contains (message_flags_of self.now.flags.items) name.now }
    {
        let mut rest = self.flags.as_slice();
        'flags: loop {
            let (flag, after) = first_flag(rest);
            if flag.is_empty() {
                return false;
            }
            if flag == name {
                return true;
            }
            rest = after;
        }
    }

    /// Whether the message has the flag `fuzzy`: its text has to be looked at again.
    pub fn is_fuzzy(&self) -> bool
        ensures { IsTrue result ↔ Contains (message_flags_of self.now.flags.items) (codes "fuzzy") }
    {
        self.has_flag(b"fuzzy")
    }

    /// Whether the message is the header of a catalog: its id is empty, and it has no context.
    pub fn is_header(&self) -> bool
        ensures { result ≡ is_header (message_view self.now) }
    {
        match &self.id {
            Some(id) => !self.is_obsolete && (self.context.is_none() && id.bytes.is_empty()),
            None => false,
        }
    }
}
