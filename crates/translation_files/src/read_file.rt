//! A file of any kind that is read.

ghost use Rattle.std.specs.Prelude.{◌≡◌, ℕ, IfOk, IfSome, List, None};
ghost use Rattle.po_catalog.specs.ReadCatalogs.{behind_mark};
ghost use Rattle.translation_files.specs.ReadFiles.{IsReadAs, IsUnread, file_kind, kind_by, text_kind};

use crate::code::NoticeCode;
use crate::counts::FileCounts;
use crate::file_messages::FileMessages;
use crate::json_file::read_json;
use crate::notice::FileNotice;
use crate::places::Places;
use crate::po::read_po;
use crate::pushed::push;
use message_report::{RulesOfLocales, Severity};
use serde_json::{Map, Value};
use std::alloc::{AllocError, Global};
use std::fmt::Display;

// Why XML isn't read.
const XML: &str =
    "it is XML, which isn't read here: check what tools/translation-input prints of it";

// Why UTF-16 isn't read.
const WIDE: &str =
    "it is UTF-16, and UTF-8 is read: convert it, or check what tools/translation-input prints of it";

// The kind of a file, by its bytes.
#[derive(Clone, Copy)]
enum FileKind {
    Json,
    Po,
    Xml,
    Wide,
}

/// Reads a file of messages: a JSON file, if its first character is `{`, else a gettext catalog.
/// That it is XML, or UTF-16, is a notice, and nothing of it is read.
///
/// It allocates; the only error is out of memory.
pub fn read_messages<S: RulesOfLocales>(
    alloc: Global,
    name: &str,
    bytes: &[u8],
    rules: &S,
    locale: Option<&str>,
) -> Result<FileMessages, AllocError>
    ensures { IfOk result (IsReadAs (file_kind bytes.now) bytes.now) }
{
    match kind_of(bytes) {
        FileKind::Json => read_json(alloc, name, bytes, rules, locale),
        FileKind::Po => read_po(alloc, name, bytes, rules, locale),
        FileKind::Xml => no_messages(alloc, XML),
        FileKind::Wide => no_messages(alloc, WIDE),
    }
}

/// Returns what is told of a file that isn't read, and no messages.
pub fn no_messages(alloc: Global, text: &str) -> Result<FileMessages, AllocError>
    ensures { IfOk result (IsUnread None NoticeCode.NotRead text.now) }
{
    unread(alloc, None, NoticeCode::NotRead, text)
}

// A file of which nothing is read, and why.
pub(crate) fn unread<T: Display + Drop>(
    alloc: Global,
    line: Option<u64>,
    code: NoticeCode,
    text: T,
) -> Result<FileMessages, AllocError>
    ensures { IfOk result (λ file. (told : List ℕ) × IsUnread line code told file × IfSome (T.output text) (λ known. told ≡ known)) }
{
    let text = String::format(alloc, text)?;
    let notice = FileNotice {
        line,
        severity: Severity::Error,
        code,
        text,
    };
    let mut notices = Vec::new(alloc);
    push(&mut notices, notice)?;
    let members = Map::new(alloc);
    let places = Places::new(alloc);
    let counts = FileCounts::none();
    Ok(FileMessages {
        name: None,
        document: Value::Object(members),
        places,
        notices,
        counts,
    })
}

// The kind of a file.
fn kind_of(bytes: &[u8]) -> FileKind
    ensures { result ≡ file_kind bytes.now }
{
    if bytes.starts_with(b"\xff\xfe") || bytes.starts_with(b"\xfe\xff") {
        FileKind::Wide
    } else {
        kind_of_text(without_mark(bytes))
    }
}

// The kind of a text.
fn kind_of_text(text: &[u8]) -> FileKind
    ensures { result ≡ text_kind text.now }
{
    match text.trim_ascii_start().first() {
        Some(first) => kind_by(*first),
        None => FileKind::Po,
    }
}

// The kind of a text that begins with a byte.
fn kind_by(first: u8) -> FileKind
    ensures { result ≡ kind_by first }
{
    match first {
        b'{' => FileKind::Json,
        b'<' => FileKind::Xml,
        _ => FileKind::Po,
    }
}

// The bytes behind the mark of UTF-8 at their front, if it is there.
pub(crate) fn without_mark(bytes: &[u8]) -> &[u8]
    ensures { result.now ≡ behind_mark bytes.now }
{
    match bytes.strip_prefix(b"\xef\xbb\xbf") {
        Some(rest) => rest,
        None => bytes,
    }
}
