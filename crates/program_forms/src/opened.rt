//! The files that are to be checked, and what is in them.

use crate::failure::{Failure, MessagesFault};
use crate::rules_text::json_place;
use form_commands::{Content, TranslationFile};
use message_report::MessageFile;
use plural_documents::{InputError, JsonTextError, json_value, read_input};
use serde_json::Value;
use std::alloc::{AllocError, Global};
use std::fs::File;
use std::io::{ErrorKind, Read};
use translation_files::is_document;

// The name of standard input.
const INPUT: &str = "-";

// What is in a file.
#[derive(Drop)]
enum Held {
    // A document of messages, and its bytes.
    Document(Value, Vec<u8>),
    // Bytes that begin as JSON, and are none.
    BrokenJson(Vec<u8>),
    // A file of translators.
    Translations(Vec<u8>),
    // It can't be opened.
    Unopened,
    // It can't be read.
    Unread(MessagesFault),
}

// A file, and what is in it.
#[derive(Drop)]
pub(crate) struct Opened<'w> {
    name: &'w str,
    held: Held,
}

// Whether standard input is one of these files.
pub(crate) fn has_input(names: &[&str]) -> bool {
    names.iter().any(|it| *it == INPUT)
}

// Opens files.
pub(crate) fn open_all<'w>(
    rt: &HostRuntime,
    names: &[&'w str],
) -> Result<Vec<Opened<'w>>, Failure> {
    let mut all = Vec::new(rt.alloc());
    for name in names {
        let held = held_in(rt, *name)?;
        if all.push(Opened { name: *name, held }).is_err() {
            return Err(Failure::Memory);
        }
    }
    Ok(all)
}

// What is in a file.
fn held_in(rt: &HostRuntime, name: &str) -> Result<Held, Failure> {
    if name == INPUT {
        return held_by(rt.alloc(), &mut rt.stdin());
    }
    match File::open(rt, name) {
        Ok(mut file) => held_by(rt.alloc(), &mut file),
        Err(_) => Ok(Held::Unopened),
    }
}

// The messages in a file.
pub(crate) fn messages_in(rt: &HostRuntime, name: &str) -> Result<Value, Failure> {
    if name == INPUT {
        return messages_by(rt.alloc(), name, &mut rt.stdin());
    }
    match File::open(rt, name) {
        Ok(mut file) => messages_by(rt.alloc(), name, &mut file),
        Err(_) => Err(unread(rt.alloc(), name, None)),
    }
}

// The messages in a reader, which is named so.
fn messages_by<R: Read>(alloc: Global, name: &str, reader: &mut R) -> Result<Value, Failure> {
    let bytes = match read_input(alloc, reader) {
        Ok(bytes) => bytes,
        Err(InputError::Read) => return Err(unread(alloc, name, Some(MessagesFault::Read))),
        Err(InputError::TooLong) => return Err(unread(alloc, name, Some(MessagesFault::TooLong))),
        Err(InputError::Memory) => return Err(Failure::Memory),
    };
    match json_value(alloc, bytes.as_slice()) {
        Ok(value) => Ok(value),
        Err(JsonTextError::Json) => Err(unread(alloc, name, no_json(alloc, bytes.as_slice()))),
        Err(JsonTextError::Memory) => Err(Failure::Memory),
    }
}

// All bytes of a file.
pub(crate) fn read_whole(rt: &HostRuntime, name: &str) -> Result<Vec<u8>, Failure> {
    if name == INPUT {
        return bytes_by(rt.alloc(), name, &mut rt.stdin());
    }
    match File::open(rt, name) {
        Ok(mut file) => bytes_by(rt.alloc(), name, &mut file),
        Err(_) => Err(unread(rt.alloc(), name, None)),
    }
}

// All bytes of a reader, which is named so.
fn bytes_by<R: Read>(alloc: Global, name: &str, reader: &mut R) -> Result<Vec<u8>, Failure> {
    let mut bytes = Vec::new(alloc);
    match reader.read_to_end(&mut bytes) {
        Ok(_) => Ok(bytes),
        Err(fault) if fault.kind() == ErrorKind::OutOfMemory => Err(Failure::Memory),
        Err(_) => Err(unread(alloc, name, Some(MessagesFault::Read))),
    }
}

// What a reader holds.
fn held_by<R: Read>(alloc: Global, reader: &mut R) -> Result<Held, Failure> {
    match read_input(alloc, reader) {
        Ok(bytes) => held_of(alloc, bytes),
        Err(InputError::Read) => Ok(Held::Unread(MessagesFault::Read)),
        Err(InputError::TooLong) => Ok(Held::Unread(MessagesFault::TooLong)),
        Err(InputError::Memory) => Err(Failure::Memory),
    }
}

// What bytes are.
fn held_of(alloc: Global, bytes: Vec<u8>) -> Result<Held, Failure> {
    match json_value(alloc, bytes.as_slice()) {
        Ok(value) if is_document(&value) => Ok(Held::Document(value, bytes)),
        Ok(_) => Ok(Held::Translations(bytes)),
        Err(JsonTextError::Json) if begins_as_json(bytes.as_slice()) => Ok(Held::BrokenJson(bytes)),
        Err(JsonTextError::Json) => Ok(Held::Translations(bytes)),
        Err(JsonTextError::Memory) => Err(Failure::Memory),
    }
}

// Whether bytes begin as an object or a list of JSON.
fn begins_as_json(bytes: &[u8]) -> bool {
    matches!(bytes.trim_ascii_start(), [b'{' | b'[', ..])
}

// Whether a file is one of translators.
fn is_of_translators(opened: &Opened<'_>) -> bool {
    matches!(opened.held, Held::Translations(_))
}

// Whether a file can't be read.
fn is_unread(opened: &Opened<'_>) -> bool {
    matches!(opened.held, Held::Unopened | Held::Unread(_))
}

// Whether one of the files is one of translators, or none can be read.
pub(crate) fn have_translations(all: &[Opened<'_>]) -> bool {
    all.iter().any(|it| is_of_translators(it)) || all.iter().all(|it| is_unread(it))
}

// The files as those of translators.
pub(crate) fn translations_of<'a>(
    alloc: Global,
    all: &'a [Opened<'a>],
) -> Result<Vec<TranslationFile<'a>>, AllocError> {
    let mut files = Vec::new(alloc);
    for it in all {
        let content = content_of(&it.held);
        files.push(TranslationFile {
            name: it.name,
            content,
        })?;
    }
    Ok(files)
}

// What is in a file, or why it can't be read.
fn content_of(held: &Held) -> Content<'_> {
    match held {
        Held::Document(_, bytes) | Held::BrokenJson(bytes) | Held::Translations(bytes) => {
            Content::Bytes(bytes.as_slice())
        }
        Held::Unopened => Content::Unread("it can't be opened: name a file that is there"),
        Held::Unread(MessagesFault::TooLong) => {
            Content::Unread("it has more than 4194304 bytes: split it")
        }
        Held::Unread(_) => Content::Unread("it can't be read: try it again, or name another file"),
    }
}

// The files as documents of messages, or the fault of the first one that is none.
pub(crate) fn documents_of<'a>(
    alloc: Global,
    all: &'a [Opened<'a>],
) -> Result<Vec<MessageFile<'a>>, Failure> {
    let mut files = Vec::new(alloc);
    for it in all {
        let document = document_in(alloc, it)?;
        let name = it.name;
        if files.push(MessageFile { name, document }).is_err() {
            return Err(Failure::Memory);
        }
    }
    Ok(files)
}

// Why bytes are no document of messages: where they are no JSON text.
fn no_json(alloc: Global, bytes: &[u8]) -> Option<MessagesFault> {
    let place = json_place(alloc, bytes);
    Some(MessagesFault::Json(place.line, place.column))
}

// The document in a file.
fn document_in<'a>(alloc: Global, opened: &'a Opened<'a>) -> Result<&'a Value, Failure> {
    let fault = match &opened.held {
        Held::Document(value, _) => return Ok(value),
        Held::BrokenJson(bytes) | Held::Translations(bytes) => no_json(alloc, bytes.as_slice()),
        Held::Unread(fault) => Some(*fault),
        Held::Unopened => None,
    };
    Err(unread(alloc, opened.name, fault))
}

// Why a file isn't read, or that it can't be opened.
fn unread(alloc: Global, name: &str, fault: Option<MessagesFault>) -> Failure {
    match (String::from_str(alloc, name), fault) {
        (Ok(name), Some(fault)) => Failure::Messages(name, fault),
        (Ok(name), None) => Failure::Open(name),
        (Err(_), _) => Failure::Memory,
    }
}
