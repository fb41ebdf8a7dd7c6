//! The texts of i18next that are forms of one message: their keys differ in the suffix alone.

use crate::json_file::count_text::first_count;
use crate::json_file::key_suffix::suffixed_key;
use crate::json_file::key_tree::{KeyTree, Piece, ROOT};
use crate::json_file::texts::{JsonText, KeyLine};
use crate::pushed::push;
use icu_plurals::PluralCategory;
use std::alloc::{AllocError, Global};
use std::collections::BTreeMap;

// What the keys of such texts have in common.
#[derive(Clone, Copy, PartialEq, Eq, PartialOrd, Ord)]
pub(crate) struct GroupName<'a> {
    pub(crate) base: Piece<'a>,
    pub(crate) is_ordinal: bool,
}

// A form.
#[derive(Clone, Copy)]
pub(crate) struct GroupForm<'a> {
    pub(crate) category: PluralCategory,
    pub(crate) text: &'a str,
    pub(crate) line: u64,
}

// The forms of a message, in the order of the file.
#[derive(Drop)]
pub(crate) struct Group<'a> {
    pub(crate) name: GroupName<'a>,
    pub(crate) line: u64,
    pub(crate) forms: Vec<GroupForm<'a>>,
    // The line of a form that is no text, if there is one.
    pub(crate) no_text: Option<u64>,
}

// The messages of a file.
#[derive(Drop)]
pub(crate) struct Groups<'a> {
    alloc: Global,
    // In the order of the file.
    pub(crate) groups: Vec<Group<'a>>,
    known: BTreeMap<GroupName<'a>, usize>,
}

impl<'a> Groups<'a> {
    // No message yet.
    pub(crate) fn new(alloc: Global) -> Groups<'a> {
        Groups {
            alloc,
            groups: Vec::new(alloc),
            known: BTreeMap::new(alloc),
        }
    }

    // Takes a text, if its key has a suffix.
    pub(crate) fn take(
        &mut self,
        keys: &KeyTree<'a>,
        text: JsonText<'a>,
    ) -> Result<(), AllocError> {
        let Some((name, category)) = form_of(keys, text.place) else {
            return Ok(());
        };
        let index = self.index(name, text.line)?;
        let form = GroupForm {
            category,
            text: text.text,
            line: text.line,
        };
        match self.groups.get_mut(index) {
            Some(group) => push(&mut group.forms, form),
            None => Ok(()),
        }
    }

    // Takes a value that is no text, if its key is that of a form of one of the messages.
    pub(crate) fn take_other(&mut self, keys: &KeyTree<'a>, other: KeyLine) {
        let Some((name, _)) = form_of(keys, other.place) else {
            return;
        };
        let Some(index) = self.known.get(&name) else {
            return;
        };
        if let Some(group) = self.groups.get_mut(*index) {
            group.no_text = Some(other.line);
        }
    }

    // The index of a message, which is added if it is new.
    fn index(&mut self, name: GroupName<'a>, line: u64) -> Result<usize, AllocError> {
        let next = self.groups.len();
        let index = *self.known.entry(name)?.or_insert(next);
        if index == next {
            let forms = Vec::new(self.alloc);
            let group = Group {
                name,
                line,
                forms,
                no_text: None,
            };
            push(&mut self.groups, group)?;
        }
        Ok(index)
    }
}

// The message of a key, and the form, if it has a suffix.
fn form_of<'a>(keys: &KeyTree<'a>, place: usize) -> Option<(GroupName<'a>, PluralCategory)> {
    let piece = keys.piece(place)?;
    let key = suffixed_key(piece.parent == ROOT, piece.name)?;
    let base = Piece {
        parent: piece.parent,
        name: key.base,
    };
    let is_ordinal = key.is_ordinal;
    Some((GroupName { base, is_ordinal }, key.category))
}

impl<'a> Group<'a> {
    // Whether its suffixes may be none: no text has the number, and they are one or two without other,
    // as in `step_one` and `step_two`, or other alone in a language that has more.
    pub(crate) fn is_doubtful(&self, has_more: bool) -> bool {
        if self.has_number() {
            return false;
        }
        match self.forms.as_slice() {
            [form] if form.category == PluralCategory::Other => {
                has_more && !self.name.is_ordinal
            }
            [_] => true,
            [first, second] => {
                first.category != PluralCategory::Other && second.category != PluralCategory::Other
            }
            _ => false,
        }
    }

    // Whether a text isn't empty.
    pub(crate) fn has_text(&self) -> bool {
        for form in &self.forms {
            if !form.text.is_empty() {
                return true;
            }
        }
        false
    }

    // Whether a text has the number.
    fn has_number(&self) -> bool {
        for form in &self.forms {
            if first_count(form.text).is_some() {
                return true;
            }
        }
        false
    }
}
