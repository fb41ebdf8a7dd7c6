//! The members of the objects of a JSON text, one after the other.

ghost use Rattle.std.specs.Prelude.{◌≤◌, ◌<◌, length, IfSome};

use crate::json_file::line_count::LineCount;
use json::{Reader, Scratch, Token};
use std::alloc::AllocError;
use std::marker::Model;

// The value of a member.
#[derive(Clone, Copy)]
pub(crate) enum MemberValue<'a> {
    Text(&'a str),
    // An object, whose members come next.
    Object,
    Null,
    // A number, a truth, or an array, whose items are passed over.
    Other,
}

// A member of an object.
#[derive(Clone, Copy)]
pub(crate) struct Member<'a> {
    // How many objects that one is in.
    pub(crate) depth: usize,
    pub(crate) key: &'a str,
    // The line of its key, from 1 on.
    pub(crate) line: u64,
    pub(crate) value: MemberValue<'a>,
}

// The members that are left of a text.
#[derive(Drop)]
pub(crate) struct Members<'a> {
    reader: Reader<'a>,
    lines: LineCount<'a>,
    // How many objects are open.
    depth: usize,
}

// The tokens that are left.
impl<'a> Model for Members<'a> {
    ghost use Rattle.std.specs.Prelude.{List};
    ghost use Rattle.json.specs.Token.{Token as SpecToken};

    ghost Value = { List SpecToken };

    ghost view = { λ members. members.reader };
}

impl<'a> Members<'a> {
    // All of a text, which is JSON.
    pub(crate) fn of(text: &'a str, scratch: &'a mut Scratch) -> Result<Members<'a>, AllocError> {
        let Ok(reader) = Reader::new(text, scratch) else {
            return Err(AllocError);
        };
        Ok(Members {
            reader,
            lines: LineCount::of(text.as_bytes()),
            depth: 0,
        })
    }

    // The next member, in the order of the text.
    pub(crate) fn next(&mut self) -> Option<Member<'a>>
        ensures { IfSome result (λ _. length self.new < length self.old) }
    {
        let mut place = self.reader.offset();
        while let Some(token) = self.reader.next() {
            match token {
                Token::Key(key) => return Some(self.member(key, place)),
                Token::BeginObject => self.depth = self.depth.saturating_add(1),
                Token::EndObject => self.depth = self.depth.saturating_sub(1),
                Token::BeginArray => self.pass(),
                _ => (),
            }
            place = self.reader.offset();
        }
        None
    }

    // The member of a key that stood at a place.
    fn member(&mut self, key: &'a str, place: usize) -> Member<'a>
        ensures { length self.new ≤ length self.old }
    {
        let depth = self.depth.saturating_sub(1);
        let line = self.lines.line_at(place);
        let value = self.value();
        Member {
            depth,
            key,
            line,
            value,
        }
    }

    // The value behind a key.
    fn value(&mut self) -> MemberValue<'a>
        ensures { length self.new ≤ length self.old }
    {
        match self.reader.next() {
            Some(Token::String(text)) => MemberValue::Text(text),
            Some(Token::BeginObject) => {
                self.depth = self.depth.saturating_add(1);
                MemberValue::Object
            }
            Some(Token::BeginArray) => {
                self.pass();
                MemberValue::Other
            }
            Some(Token::Null) => MemberValue::Null,
            _ => MemberValue::Other,
        }
    }

    // Goes past the object of the last member.
    pub(crate) fn pass_object(&mut self)
        ensures { length self.new ≤ length self.old }
    {
        self.pass();
        self.depth = self.depth.saturating_sub(1);
    }

    // Goes past the end of the array or object that was opened last.
    fn pass(&mut self)
        ensures { length self.new ≤ length self.old }
    {
        let mut opened: usize = 1;
        while let Some(token) = self.reader.next() {
            match token {
                Token::BeginArray | Token::BeginObject => opened = opened.saturating_add(1),
                Token::EndArray | Token::EndObject => opened = opened.saturating_sub(1),
                _ => (),
            }
            if opened == 0 {
                return;
            }
        }
    }
}
