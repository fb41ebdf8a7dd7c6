//! The messages of a file in one locale, as they are gathered.

ghost use Rattle.std.specs.Prelude.{◌≡◌, ◌++◌, All, IfOk, List};
ghost use Rattle.translation_files.specs.NoticeSeverities.{IsErrorCode, IsGraded, IsNoteCode, severity_of_code};

use crate::code::NoticeCode;
use crate::counts::{Fate, FileCounts};
use crate::file_messages::FileMessages;
use crate::lines::{FormLine, MessageKind, MessageLines};
use crate::notice::FileNotice;
use crate::notices::Notices;
use crate::places::Places;
use crate::pushed::push;
use message_report::{Form, Severity};
use plural_documents::printed_name;
use serde_json::{Map, Value, put};
use std::alloc::{AllocError, Global};
use std::fmt::Display;
use std::mem;

// What a message is known by, and its line.
#[derive(Clone, Copy)]
pub(crate) struct MessageHead<'a> {
    pub(crate) kind: MessageKind,
    pub(crate) key: &'a str,
    pub(crate) line: u64,
}

// What is gathered of a file. If memory runs out, that is kept, and told in the end alone: nothing that
// was gathered is returned then.
#[derive(Drop)]
pub(crate) struct Gathered {
    pub(crate) alloc: Global,
    // The name of the file, if that is another one than was read.
    name: Option<String>,
    pub(crate) locale: String,
    cardinal: Map<String, Value>,
    ordinal: Map<String, Value>,
    patterns: Map<String, Value>,
    source: Map<String, Value>,
    places: Places,
    notices: Notices,
    counts: FileCounts,
    // Of the message that is being gathered: its forms by name, the lines of these, what stands for
    // the number, and the arguments of its source.
    forms: Map<String, Value>,
    lines: Vec<FormLine>,
    placeholder: Option<String>,
    arguments: Vec<Value>,
    // Whether memory ran out.
    has_failed: bool,
}

impl Gathered {
    // Nothing yet, of a locale that isn't known yet.
    pub(crate) fn new(alloc: Global) -> Gathered {
        Gathered {
            alloc,
            name: None,
            locale: String::new(alloc),
            cardinal: Map::new(alloc),
            ordinal: Map::new(alloc),
            patterns: Map::new(alloc),
            source: Map::new(alloc),
            places: Places::new(alloc),
            notices: Notices::new(alloc),
            counts: FileCounts::none(),
            forms: Map::new(alloc),
            lines: Vec::new(alloc),
            placeholder: None,
            arguments: Vec::new(alloc),
            has_failed: false,
        }
    }

    // Keeps whether memory ran out.
    pub(crate) fn keep(&mut self, done: Result<(), AllocError>) {
        if let Err(_) = done {
            self.has_failed = true;
        }
    }

    // Keeps that memory ran out.
    pub(crate) fn fail(&mut self) {
        self.has_failed = true;
    }

    // Keeps the name of the file.
    pub(crate) fn keep_name(&mut self, name: &str) {
        match String::from_str(self.alloc, name) {
            Ok(name) => self.name = Some(name),
            Err(_) => self.fail(),
        }
    }

    // Keeps the locale of the file.
    pub(crate) fn keep_locale(&mut self, locale: &str) {
        match String::from_str(self.alloc, locale) {
            Ok(locale) => self.locale = locale,
            Err(_) => self.fail(),
        }
    }

    // Tells what is wrong.
    pub(crate) fn tell<T: Display + Drop>(&mut self, line: Option<u64>, code: NoticeCode, text: T)
        requires { IsErrorCode code }
    {
        self.add_notice(Severity::Error, line, code, text);
    }

    // Tells what isn't checked, or how something is taken.
    pub(crate) fn note<T: Display + Drop>(&mut self, line: Option<u64>, code: NoticeCode, text: T)
        requires { IsNoteCode code }
    {
        self.add_notice(Severity::Note, line, code, text);
    }

    // Tells why so many messages are left out.
    pub(crate) fn leave_out<T: Display + Drop>(
        &mut self,
        count: u64,
        line: Option<u64>,
        code: NoticeCode,
        text: T,
    )
        requires { IsErrorCode code }
    {
        self.tell(line, code, text);
        self.count(Fate::LeftOut, count);
    }

    // Adds a notice, which is as grave as its code.
    fn add_notice<T: Display + Drop>(
        &mut self,
        severity: Severity,
        line: Option<u64>,
        code: NoticeCode,
        text: T,
    )
        requires { severity ≡ severity_of_code code }
    {
        match String::format(self.alloc, text) {
            Ok(text) => self.push_notice(FileNotice {
                line,
                severity,
                code,
                text,
            }),
            Err(_) => self.fail(),
        }
    }

    // Appends a notice.
    fn push_notice(&mut self, notice: FileNotice)
        requires { IsGraded notice }
    {
        let done = self.notices.push(notice);
        self.keep(done);
    }

    // Tells that a file has no messages.
    pub(crate) fn note_no_messages(&mut self) {
        let text = "it has no messages with plural forms";
        self.note(None, NoticeCode::NoMessages, text);
    }

    // Counts messages.
    pub(crate) fn count(&mut self, fate: Fate, count: u64) {
        let done = self.counts.add(fate, count);
        self.keep(done);
    }

    // Whether there is a message of this kind and key already, which is told.
    pub(crate) fn is_twice(&mut self, head: MessageHead<'_>) -> bool {
        match self.line_of(head) {
            Some(known) => {
                self.tell_twice(head, known);
                true
            }
            None => false,
        }
    }

    // The line of the message of this kind and key.
    fn line_of(&self, head: MessageHead<'_>) -> Option<u64> {
        match self.places.find(self.locale.as_str(), head.kind, head.key) {
            Some(known) => Some(known.line),
            None => None,
        }
    }

    // Tells that a message stands twice.
    fn tell_twice(&mut self, head: MessageHead<'_>, known: u64) {
        let shown = printed_name(head.key);
        self.leave_out(
            1,
            Some(head.line),
            NoticeCode::Twice,
            format_args!(
                "'{shown}' stands in line {known}, too, and that one is taken: remove one of them"
            ),
        );
    }

    // Adds a form to the message, with the text that was made, unless memory ran out.
    pub(crate) fn put_form(&mut self, form: Form, text: Result<String, AllocError>) {
        let done = match text {
            Ok(text) => put(
                &mut self.forms,
                self.alloc,
                form.as_str(),
                Value::String(text),
            ),
            Err(error) => Err(error),
        };
        self.keep(done);
    }

    // Adds the line of a form to the message.
    pub(crate) fn put_line(&mut self, form: Form, line: u64) {
        let done = push(&mut self.lines, FormLine { form, line });
        self.keep(done);
    }

    // Adds what stands for the number to the message.
    pub(crate) fn put_placeholder<T: Display + Drop>(&mut self, text: T) {
        match String::format(self.alloc, text) {
            Ok(text) => self.placeholder = Some(text),
            Err(_) => self.fail(),
        }
    }

    // Adds an argument of the source to the message, with the text that was made, unless memory ran
    // out.
    pub(crate) fn put_argument(&mut self, text: Result<String, AllocError>) {
        let done = match text {
            Ok(text) => push(&mut self.arguments, Value::String(text)),
            Err(error) => Err(error),
        };
        self.keep(done);
    }

    // Ends the message, whose forms were added, and its arguments, if they are known.
    pub(crate) fn end(&mut self, head: MessageHead<'_>, has_source: bool) {
        self.end_source(head, has_source);
        self.end_forms(head);
        self.end_lines(head);
    }

    // Adds a message that is a pattern.
    pub(crate) fn add_pattern(&mut self, head: MessageHead<'_>, text: &str) {
        let done = match Value::try_from_str(self.alloc, text) {
            Ok(text) => put(&mut self.patterns, self.alloc, head.key, text),
            Err(error) => Err(error),
        };
        self.keep(done);
        self.end_lines(head);
    }

    // Puts the forms of a message.
    fn end_forms(&mut self, head: MessageHead<'_>) {
        let alloc = self.alloc;
        let forms = mem::replace(&mut self.forms, Map::new(alloc));
        let members = match head.kind {
            MessageKind::Ordinal => &mut self.ordinal,
            _ => &mut self.cardinal,
        };
        let done = put(members, alloc, head.key, Value::Object(forms));
        self.keep(done);
    }

    // Puts the lines of a message.
    fn end_lines(&mut self, head: MessageHead<'_>) {
        let alloc = self.alloc;
        let lines = MessageLines {
            line: head.line,
            forms: mem::replace(&mut self.lines, Vec::new(alloc)),
            placeholder: mem::replace(&mut self.placeholder, None),
        };
        let locale = self.locale.as_str();
        let done = self
            .places
            .insert(alloc, locale, head.kind, head.key, lines);
        self.keep(done);
    }

    // Puts the arguments of a message's source. Two messages of one key share them: where they
    // differ, they aren't known.
    fn end_source(&mut self, head: MessageHead<'_>, has_source: bool) {
        let source = self.taken_source();
        if has_source && !self.is_shared(head) {
            let done = put(&mut self.source, self.alloc, head.key, source);
            return self.keep(done);
        }
        if !has_source || self.source.get(head.key) != Some(&source) {
            drop(self.source.remove(head.key));
        }
        drop(source);
    }

    // The arguments of the message's source, which are taken.
    fn taken_source(&mut self) -> Value {
        Value::Array(mem::replace(&mut self.arguments, Vec::new(self.alloc)))
    }

    // Whether there is a message of this key, and of the other kind.
    fn is_shared(&self, head: MessageHead<'_>) -> bool {
        match head.kind {
            MessageKind::Ordinal => self.cardinal.contains_key(head.key),
            _ => self.ordinal.contains_key(head.key),
        }
    }

    // What was gathered. The only error is out of memory, at any time before.
    pub(crate) fn finish(mut self) -> Result<FileMessages, AllocError>
        ensures { IfOk result (λ file. All IsGraded file.notices.items) }
    {
        let mut document = Map::new(self.alloc);
        let filled = self.fill(&mut document);
        self.keep(filled);
        if self.has_failed {
            drop(document);
            drop(self);
            return Err(AllocError);
        }
        Ok(self.into_messages(document))
    }

    // The same, with notices that the file tells before its own.
    pub(crate) fn finish_behind(self, told: Vec<FileNotice>) -> Result<FileMessages, AllocError>
        ensures { IfOk result (λ file. (own : List FileNotice) × (file.notices.items ≡ told.items ++ own) × All IsGraded own) }
    {
        let file = match self.finish() {
            Ok(file) => file,
            Err(error) => {
                drop(told);
                return Err(error);
            }
        };
        told_before(told, file)
    }

    // These messages, with their document.
    fn into_messages(self, document: Map<String, Value>) -> FileMessages
        ensures { All IsGraded result.notices.items }
    {
        FileMessages {
            name: self.name,
            document: Value::Object(document),
            places: self.places,
            notices: self.notices.into_items(),
            counts: self.counts,
        }
    }

    // Puts the messages into their document.
    fn fill(&mut self, document: &mut Map<String, Value>) -> Result<(), AllocError> {
        if self.cardinal.is_empty() && self.ordinal.is_empty() && self.patterns.is_empty() {
            return Ok(());
        }
        let mut parts = Map::new(self.alloc);
        match self.fill_parts(&mut parts) {
            Ok(()) => {
                let locale = self.locale.as_str();
                put(document, self.alloc, locale, Value::Object(parts))
            }
            Err(error) => {
                drop(parts);
                Err(error)
            }
        }
    }

    // Puts the messages into the parts of the locale.
    fn fill_parts(&mut self, parts: &mut Map<String, Value>) -> Result<(), AllocError> {
        let alloc = self.alloc;
        put_part(alloc, parts, "cardinal", &mut self.cardinal)?;
        put_part(alloc, parts, "ordinal", &mut self.ordinal)?;
        if !self.source.is_empty() {
            put_part(alloc, parts, "source", &mut self.source)?;
        }
        if !self.patterns.is_empty() {
            put_part(alloc, parts, "patterns", &mut self.patterns)?;
        }
        Ok(())
    }
}

// Puts a part, with the members, which are taken.
fn put_part(
    alloc: Global,
    parts: &mut Map<String, Value>,
    key: &str,
    members: &mut Map<String, Value>,
) -> Result<(), AllocError> {
    let members = mem::replace(members, Map::new(alloc));
    put(parts, alloc, key, Value::Object(members))
}

// A file with further notices before its own.
fn told_before(told: Vec<FileNotice>, file: FileMessages) -> Result<FileMessages, AllocError>
    ensures { IfOk result (λ whole. whole.notices.items ≡ told.items ++ file.notices.items) }
{
    let mut told = told;
    let FileMessages {
        name,
        document,
        places,
        mut notices,
        counts,
    } = file;
    match told.append(&mut notices) {
        Ok(()) => Ok(FileMessages {
            name,
            document,
            places,
            notices: told,
            counts,
        }),
        Err(error) => Err(error),
    }
}
