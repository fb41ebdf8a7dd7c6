//! What is told of bytes that aren't JSON.

ghost use Rattle.std.specs.Prelude.{IfOk};
ghost use Rattle.translation_files.specs.ReadFiles.{IsBroken, IsUnreadAt};

use crate::code::NoticeCode;
use crate::file_messages::FileMessages;
use crate::json_file::line_count::line_of;
use crate::read_file::unread;
use serde_json::Error;
use std::alloc::{AllocError, Global};
use std::str;

// A file whose bytes aren't UTF-8, or aren't JSON: where is told.
pub(crate) fn broken(alloc: Global, bytes: &[u8], fault: &Error) -> Result<FileMessages, AllocError>
    ensures { IfOk result (IsBroken bytes.now) }
{
    match str::from_utf8(bytes) {
        Ok(_) => no_json(alloc, fault),
        Err(fault) => no_text(alloc, bytes, fault.valid_up_to()),
    }
}

// The byte that isn't UTF-8 is told.
fn no_text(alloc: Global, bytes: &[u8], place: usize) -> Result<FileMessages, AllocError>
    ensures { IfOk result (IsUnreadAt NoticeCode.Charset) }
{
    let byte = bytes.get(place).copied().unwrap_or(0);
    unread(
        alloc,
        Some(line_of(bytes, place)),
        NoticeCode::Charset,
        format_args!("the byte 0x{byte:02x} isn't UTF-8: convert the file to UTF-8"),
    )
}

// What isn't JSON is told.
fn no_json(alloc: Global, fault: &Error) -> Result<FileMessages, AllocError>
    ensures { IfOk result (IsUnreadAt NoticeCode.Syntax) }
{
    let column = fault.column();
    let line = u64::try_from(fault.line()).unwrap_or(u64::MAX);
    let what = if fault.is_eof() {
        "it ends there"
    } else {
        "what stands there can't be read"
    };
    unread(
        alloc,
        Some(line),
        NoticeCode::Syntax,
        format_args!("it is no JSON at column {column}, {what}: correct it there"),
    )
}
