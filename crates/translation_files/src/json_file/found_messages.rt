//! The messages of ARB and i18next files, and of others whose texts are ICU patterns.

use crate::code::NoticeCode;
use crate::counts::Fate;
use crate::gathered::{Gathered, MessageHead};
use crate::json_file::argument_head::wrong_head;
use crate::json_file::empty_form::note_empty;
use crate::json_file::icu_scan::has_plural;
use crate::json_file::key_tree::KeyTree;
use crate::json_file::message_keys::{MessageKeys, shown_key};
use crate::json_file::pattern_message::add_pattern_message;
use crate::json_file::spoken_categories::{Named, Spoken};
use crate::json_file::suffix_groups::{Group, Groups};
use crate::json_file::suffix_message::add_suffix_message;
use crate::json_file::texts::{JsonText, JsonTexts, KeyLine};
use crate::lines::MessageKind;
use crate::pushed::push;
use message_report::Form;
use plural_documents::printed_name;
use std::alloc::{AllocError, Global};

// The most keys that stand twice that are told one by one.
const MOST_TOLD: usize = 10;

// The texts of a file that are messages.
#[derive(Drop)]
pub(crate) struct FoundMessages<'a> {
    is_arb: bool,
    patterns: Vec<JsonText<'a>>,
    groups: Groups<'a>,
}

impl<'a> FoundMessages<'a> {
    // None yet, of a file of ARB or another one.
    pub(crate) fn new(alloc: Global, is_arb: bool) -> FoundMessages<'a> {
        FoundMessages {
            is_arb,
            patterns: Vec::new(alloc),
            groups: Groups::new(alloc),
        }
    }

    // Takes those of a file's texts; keys of ARB have no suffixes.
    pub(crate) fn fill(&mut self, texts: &JsonTexts<'a>) -> Result<(), AllocError> {
        for text in &texts.texts {
            if has_plural(text.text) || wrong_head(text.text).is_some() {
                push(&mut self.patterns, *text)?;
            } else if !self.is_arb {
                self.groups.take(&texts.keys, *text)?;
            }
        }
        for other in &texts.others {
            self.groups.take_other(&texts.keys, *other);
        }
        Ok(())
    }

    // How many there are.
    pub(crate) fn count(&self) -> u64 {
        self.patterns.len().saturating_add(self.groups.groups.len()) as u64
    }
}

// Tells which keys stand twice.
pub(crate) fn tell_repeated(gathered: &mut Gathered, keys: &KeyTree<'_>, repeated: &[KeyLine]) {
    for (index, again) in repeated.iter().enumerate() {
        if index == MOST_TOLD {
            let rest = repeated.len().saturating_sub(MOST_TOLD);
            return gathered.tell(
                Some(again.line),
                NoticeCode::Twice,
                format_args!("from here on {rest} more keys stand twice"),
            );
        }
        tell_again(gathered, keys, *again);
    }
}

// Tells that a key stands twice.
fn tell_again(gathered: &mut Gathered, keys: &KeyTree<'_>, again: KeyLine) {
    match shown_key(gathered.alloc, keys, again.place) {
        Ok(key) => {
            let shown = printed_name(key.as_str());
            gathered.tell(
                Some(again.line),
                NoticeCode::Twice,
                format_args!(
                    "'{shown}' stands twice, and the first one is taken: remove one of them"
                ),
            )
        }
        Err(_) => gathered.fail(),
    }
}

// Adds the messages of a file. A `_zero` is for exactly 0 where the language has no zero.
pub(crate) fn add_found<'a>(
    gathered: &mut Gathered,
    keys: &KeyTree<'a>,
    found: &FoundMessages<'a>,
    spoken: Spoken,
) {
    let mut message_keys = MessageKeys::new(keys);
    let arb = if found.is_arb { Some(spoken) } else { None };
    for text in &found.patterns {
        add_pattern(gathered, keys, &mut message_keys, *text, arb);
    }
    for group in &found.groups.groups {
        add_group(gathered, &mut message_keys, group, spoken);
    }
    tell_left_out(gathered, &message_keys);
}

// Adds the message of a pattern.
fn add_pattern<'a>(
    gathered: &mut Gathered,
    keys: &KeyTree<'a>,
    message_keys: &mut MessageKeys<'_, 'a>,
    text: JsonText<'a>,
    arb: Option<Spoken>,
) {
    let Some(piece) = keys.piece(text.place) else {
        return;
    };
    match message_keys.key_of(piece, text.line) {
        Ok(Some(key)) => add_pattern_message(gathered, key.as_str(), text, arb),
        Ok(None) => (),
        Err(_) => gathered.fail(),
    }
}

// Adds the message of texts with suffixes.
fn add_group<'a>(
    gathered: &mut Gathered,
    message_keys: &mut MessageKeys<'_, 'a>,
    group: &Group<'a>,
    spoken: Spoken,
) {
    match message_keys.key_of(group.name.base, group.line) {
        Ok(Some(key)) => add_group_under(gathered, key.as_str(), group, spoken),
        Ok(None) => (),
        Err(_) => gathered.fail(),
    }
}

// Adds the message of texts with suffixes under a key, unless it may be none.
fn add_group_under(gathered: &mut Gathered, key: &str, group: &Group<'_>, spoken: Spoken) {
    if group.is_doubtful(spoken.has_more) {
        return note_doubtful(gathered, key, group);
    }
    if !group.has_text() {
        return note_empty(gathered, key, group.line);
    }
    if let Some(line) = group.no_text {
        return note_no_text(gathered, key, line);
    }
    let kind = if group.name.is_ordinal {
        MessageKind::Ordinal
    } else {
        MessageKind::Cardinal
    };
    let line = group.line;
    add_suffix_message(
        gathered,
        MessageHead { kind, key, line },
        group,
        spoken.zero != Named::Lacking,
    );
}

// Tells that a form of a message is no text.
fn note_no_text(gathered: &mut Gathered, key: &str, line: u64) {
    let shown = printed_name(key);
    gathered.note(
        Some(line),
        NoticeCode::LeftOut,
        format_args!("'{shown}' has a form that is no text: left out"),
    );
    gathered.count(Fate::LeftOut, 1);
}

// Tells that texts may be no message.
fn note_doubtful(gathered: &mut Gathered, key: &str, group: &Group<'_>) {
    let shown = printed_name(key);
    let ordinal = if group.name.is_ordinal {
        "_ordinal"
    } else {
        ""
    };
    let form = match group.forms.first() {
        Some(form) => Form::Category(form.category).as_str(),
        None => "no form",
    };
    let beside = if form == "other" {
        "alone"
    } else {
        "without other"
    };
    gathered.note(
        Some(group.line),
        NoticeCode::LeftOut,
        format_args!("'{shown}{ordinal}' has {form} {beside}, so it may be no plural: left out"),
    );
    gathered.count(Fate::LeftOut, 1);
}

// Tells how many messages have keys that are too long.
fn tell_left_out(gathered: &mut Gathered, message_keys: &MessageKeys<'_, '_>) {
    let count = message_keys.left_out;
    if count == 0 {
        return;
    }
    gathered.leave_out(
        count,
        message_keys.line,
        NoticeCode::TooMany,
        format_args!("the keys around messages are too long together: messages left out: {count}"),
    );
}
