//! The lines of a catalog that can't be read.

ghost use Rattle.translation_files.specs.NoticeSeverities.{IsErrorCode};

use crate::code::NoticeCode;
use crate::counts::Fate;
use crate::gathered::Gathered;
use crate::po::standing::{Standing, standing_of};
use po_catalog::{Catalog, Cause, Entry, Fault};
use std::str;

// How many lines that are in no message with plural forms are told one by one.
const MOST_TOLD: u64 = 5;

// The charset that a catalog names, if it is another one than UTF-8, and the bytes are no UTF-8.
pub(crate) fn other_charset(catalog: &Catalog) -> Option<&str> {
    if !has_other_bytes(catalog) {
        return None;
    }
    match str::from_utf8(catalog.charset()?) {
        Ok(charset) if !is_utf8(charset) => Some(charset),
        _ => None,
    }
}

// Whether bytes of a catalog are no UTF-8.
fn has_other_bytes(catalog: &Catalog) -> bool {
    for it in catalog.faults.iter() {
        if let Cause::NotUtf8 | Cause::TextNotUtf8 = it.cause {
            return true;
        }
    }
    false
}

// Whether a charset is UTF-8, or none.
fn is_utf8(charset: &str) -> bool {
    charset.eq_ignore_ascii_case("UTF-8")
        || charset.eq_ignore_ascii_case("UTF8")
        || charset.eq_ignore_ascii_case("ASCII")
        || charset.eq_ignore_ascii_case("US-ASCII")
        || charset == "CHARSET"
}

// How many lines were told, how many weren't, and the first of these.
#[derive(Clone, Copy)]
struct Told {
    count: u64,
    more: u64,
    next: Option<Fault>,
}

// Tells which lines can't be read: of a message with plural forms the first one, and of all others
// the first few. Such messages are left out.
pub(crate) fn tell_faults(gathered: &mut Gathered, catalog: &Catalog) {
    let mut told = Told {
        count: 0,
        more: 0,
        next: None,
    };
    let mut rest = catalog.faults.as_slice();
    for (index, entry) in catalog.entries.iter().enumerate() {
        let (before, behind) = cut_at_line(rest, entry.line);
        let (inside, after) = cut_at_line(behind, line_behind(catalog, index));
        tell_strays(gathered, before, &mut told);
        tell_inside(gathered, entry, inside, &mut told);
        rest = after;
    }
    tell_strays(gathered, rest, &mut told);
    tell_more(gathered, &told);
}

// The line of the entry behind one.
fn line_behind(catalog: &Catalog, index: usize) -> usize {
    match catalog.entries.get(index.saturating_add(1)) {
        Some(next) => next.line,
        None => usize::MAX,
    }
}

// The faults before a line, and those from it on.
fn cut_at_line(faults: &[Fault], line: usize) -> (&[Fault], &[Fault]) {
    let mut count = 0usize;
    for it in faults {
        if it.line >= line {
            break;
        }
        count = count.saturating_add(1);
    }
    match faults.split_at_checked(count) {
        Some(parts) => parts,
        None => (faults, &[]),
    }
}

// Tells the faults of a message.
fn tell_inside(gathered: &mut Gathered, entry: &Entry, faults: &[Fault], told: &mut Told) {
    let Standing::Broken = standing_of(entry) else {
        return tell_strays(gathered, faults, told);
    };
    let text = "a line before it can't be read: correct it";
    match faults.first() {
        Some(fault) => tell(gathered, fault),
        None => gathered.tell(Some(entry.line as u64), NoticeCode::Syntax, text),
    }
    gathered.count(Fate::LeftOut, 1);
}

// Tells the faults that are of no message with plural forms, unless enough were told.
fn tell_strays(gathered: &mut Gathered, faults: &[Fault], told: &mut Told) {
    for fault in faults {
        if told.count < MOST_TOLD {
            told.count += 1;
            tell(gathered, fault);
        } else {
            told.more = told.more.saturating_add(1);
            told.next = told.next.or(Some(*fault));
        }
    }
}

// Tells a fault.
fn tell(gathered: &mut Gathered, fault: &Fault) {
    gathered.tell(Some(fault.line as u64), code_of(fault), fault.cause);
}

// The code of a fault.
fn code_of(fault: &Fault) -> NoticeCode
    ensures { IsErrorCode result }
{
    match fault.cause {
        Cause::NotUtf8 | Cause::TextNotUtf8 => NoticeCode::Charset,
        _ => NoticeCode::Syntax,
    }
}

// Tells how many lines aren't told, at the first of them.
fn tell_more(gathered: &mut Gathered, told: &Told) {
    let count = told.more;
    if let Some(fault) = told.next {
        gathered.tell(
            Some(fault.line as u64),
            code_of(&fault),
            format_args!("from here on {count} more lines can't be read"),
        );
    }
}
