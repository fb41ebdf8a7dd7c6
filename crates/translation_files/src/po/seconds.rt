//! Messages of one context and id.

use crate::code::NoticeCode;
use crate::gathered::Gathered;
use crate::places::insert;
use crate::po::message::key_of;
use crate::po::range::range_of;
use crate::po::standing::{Standing, standing_of};
use plural_documents::printed_name;
use po_catalog::{Catalog, Entry};
use std::alloc::AllocError;
use std::collections::BTreeMap;

// What is known of the messages of one context and id, up to some message.
#[derive(Clone, Copy)]
struct Known {
    // The line of the first one.
    line: usize,
    // Whether one of them has plural forms, or is a header.
    is_told: bool,
    // Whether one of them is put into the document, where the second one is told.
    is_put: bool,
}

// Tells the messages whose context and id one before them has, if one of these has plural forms, and
// each header behind the first. Obsolete ones don't count, and neither do those that can't be read.
pub(crate) fn tell_seconds(gathered: &mut Gathered, catalog: &Catalog, has_rules: bool) {
    let mut firsts = BTreeMap::new(gathered.alloc);
    for entry in catalog.entries.iter() {
        if !entry.is_obsolete && !entry.is_faulty {
            let told = tell_if_second(gathered, &mut firsts, entry, has_rules);
            gathered.keep(told);
        }
    }
    drop(firsts);
}

// Tells a message, if it is a second one.
fn tell_if_second(
    gathered: &mut Gathered,
    firsts: &mut BTreeMap<String, Known>,
    entry: &Entry,
    has_rules: bool,
) -> Result<(), AllocError> {
    let key = key_of(gathered.alloc, entry)?;
    let own = known_of(entry, has_rules);
    let known = match firsts.get(key.as_str()) {
        Some(first) => {
            let known = joined(*first, own);
            if known.is_told && !(first.is_put && own.is_put) {
                tell_second(gathered, entry, key.as_str(), known.line);
            }
            known
        }
        None => own,
    };
    insert(firsts, key, known)
}

// What is known of a message.
fn known_of(entry: &Entry, has_rules: bool) -> Known {
    let is_whole = matches!(standing_of(entry), Standing::Whole);
    Known {
        line: entry.line,
        is_told: entry.plural_id.is_some() || entry.is_header(),
        is_put: has_rules && is_whole && range_of(entry).is_none(),
    }
}

// What is known of messages, and of one more.
fn joined(first: Known, more: Known) -> Known {
    Known {
        line: first.line,
        is_told: first.is_told || more.is_told,
        is_put: first.is_put || more.is_put,
    }
}

// Tells a second message, given the line of the first.
fn tell_second(gathered: &mut Gathered, entry: &Entry, key: &str, first: usize) {
    let line = Some(entry.line as u64);
    if entry.is_header() {
        return gathered.tell(
            line,
            NoticeCode::Twice,
            format_args!("a header stands in line {first}, too: remove one of them"),
        );
    }
    let shown = printed_name(key);
    gathered.tell(
        line,
        NoticeCode::Twice,
        format_args!("'{shown}' stands in line {first}, too: remove one of them"),
    );
}
