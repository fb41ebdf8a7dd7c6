//! Reading a catalog, line by line.

ghost use Rattle.std.specs.Prelude.{◌≡◌, ◌<◌, length, IfOk, OnOk};
ghost use Rattle.po_catalog.specs.Drafts.{all_ended, behind_empty, behind_line, comment_checked, empty_draft, ended_at_comment, ended_before, ended_if_whole, flags_read};
ghost use Rattle.po_catalog.specs.Drafts.{field_taken, form_checked, keyword_of_message, keyword_read, line_checked, message_begun, message_ended, message_kept};
ghost use Rattle.po_catalog.specs.Drafts.{noted, placed, text_checked, text_ended, texts_checked, told, unknown_read};
ghost use Rattle.po_catalog.specs.Inner.DraftViews.{IsFurther, ReadsTold, TakesFront, TakesFieldText, TextGoesOn, draft_view, field_view};
ghost use Rattle.po_catalog.specs.ReadCatalogs.{ReadsFields, ReadsLine, catalog_at, catalog_view};

use crate::bytes::{add_flags, is_utf8};
use crate::catalog::Catalog;
use crate::draft::Field;
use crate::entry::Entry;
use crate::fault::{Cause, Fault, ReadError};
use crate::front::{Front, Keyword, front_of};
use crate::line_kind::{LineKind, kind_of};
use std::alloc::{AllocError, Global};
use std::mem;

// How far a line is read.
enum Progress<'l> {
    // What is left of it.
    Left(&'l [u8]),
    // Its end, or its first fault.
    Done(Option<Cause>),
}

// What is read so far.
#[derive(Drop)]
pub(crate) struct Reader {
    alloc: Global,
    entries: Vec<Entry>,
    faults: Vec<Fault>,
    // The message that is being read, and the text in it.
    entry: Entry,
    field: Option<Field>,
    // Whether a keyword of the message was read, and whether `msgstr` was.
    is_begun: bool,
    is_whole: bool,
    // Whether the line before was empty.
    is_apart: bool,
}

impl Reader {
    pub(crate) fn new(alloc: Global) -> Self
        ensures { draft_view result ≡ empty_draft }
    {
        Reader {
            alloc,
            entries: Vec::new(alloc),
            faults: Vec::new(alloc),
            entry: Entry::new(alloc),
            field: None,
            is_begun: false,
            is_whole: false,
            is_apart: true,
        }
    }

    // Tells what is wrong in a comment.
    #[tactic(auto, unfolding(crate::specs::Drafts::noted))]
    fn note(&mut self, line: usize, cause: Cause) -> Result<(), AllocError>
        ensures { OnOk result (draft_view self.new ≡ noted line cause (draft_view self.old)) }
    {
        self.faults.push(Fault { line, cause })?;
        Ok(())
    }

    // Tells what is wrong in a line of the message.
    #[tactic(auto, unfolding(crate::specs::Drafts::told))]
    fn tell(&mut self, line: usize, cause: Cause) -> Result<(), AllocError>
        ensures { OnOk result (draft_view self.new ≡ told line cause (draft_view self.old)) }
    {
        self.note(line, cause)?;
        self.entry.is_faulty = true;
        Ok(())
    }

    // Tells that no text stood behind a keyword.
    #[tactic(auto, unfolding(crate::specs::Drafts::text_checked))]
    fn check_text(&mut self, is_given: bool, line: usize) -> Result<(), AllocError>
        ensures { OnOk result (draft_view self.new ≡ text_checked is_given line (draft_view self.old)) }
    {
        if is_given {
            Ok(())
        } else {
            self.tell(line, Cause::NoText)
        }
    }

    // Takes a text that was read.
    #[tactic(auto, unfolding(crate::specs::Drafts::field_taken))]
    fn take_field(&mut self, field: Field) -> Result<(), AllocError>
        ensures { OnOk result (draft_view self.new ≡ field_taken (field_view field) (draft_view self.old)) }
    {
        let Field {
            place,
            text,
            is_given,
        } = field;
        self.check_text(is_given, text.line)?;
        self.entry.take(place, text)?;
        Ok(())
    }

    // Ends the text that is being read.
    #[tactic(auto, unfolding(crate::specs::Drafts::text_ended))]
    fn end_field(&mut self) -> Result<(), AllocError>
        ensures { OnOk result (draft_view self.new ≡ text_ended (draft_view self.old)) }
    {
        match mem::replace(&mut self.field, None) {
            None => Ok(()),
            Some(field) => self.take_field(field),
        }
    }

    // Tells the first text of the message whose bytes are no UTF-8, if nothing else is wrong in it.
    #[tactic(auto, unfolding(crate::specs::Drafts::texts_checked))]
    fn check_texts(&mut self) -> Result<(), AllocError>
        ensures { OnOk result (draft_view self.new ≡ texts_checked (draft_view self.old)) }
    {
        if self.entry.is_faulty {
            return Ok(());
        }
        match self.entry.other_line() {
            Some(line) => self.tell(line, Cause::TextNotUtf8),
            None => Ok(()),
        }
    }

    // Tells that the message has no form, if nothing else is wrong in it.
    #[tactic(auto, unfolding(crate::specs::Drafts::form_checked))]
    fn check_form(&mut self) -> Result<(), AllocError>
        ensures { OnOk result (draft_view self.new ≡ form_checked (draft_view self.old)) }
    {
        if self.entry.forms.is_empty() && !self.entry.is_faulty {
            self.tell(self.entry.line, Cause::NoForm)
        } else {
            Ok(())
        }
    }

    // Keeps the message, and reads another one.
    #[tactic(auto, unfolding(crate::specs::Drafts::message_kept), using(std::proofs::lemmas::List::map_push))]
    fn keep_message(&mut self) -> Result<(), AllocError>
        ensures { OnOk result (draft_view self.new ≡ message_kept (draft_view self.old)) }
    {
        let entry = mem::replace(&mut self.entry, Entry::new(self.alloc));
        self.entries.push(entry)?;
        self.is_begun = false;
        self.is_whole = false;
        Ok(())
    }

    // Ends the message, if it was begun.
    #[tactic(auto, unfolding(crate::specs::Drafts::message_ended))]
    fn end_message(&mut self) -> Result<(), AllocError>
        ensures { OnOk result (draft_view self.new ≡ message_ended (draft_view self.old)) }
    {
        if !self.is_begun {
            return Ok(());
        }
        self.check_texts()?;
        self.check_form()?;
        self.keep_message()
    }

    // Ends the text and the message.
    #[tactic(auto, unfolding(crate::specs::Drafts::all_ended))]
    fn end_all(&mut self) -> Result<(), AllocError>
        ensures { OnOk result (draft_view self.new ≡ all_ended (draft_view self.old)) }
    {
        self.end_field()?;
        self.end_message()
    }

    // Ends the message before a comment.
    #[tactic(auto, unfolding(crate::specs::Drafts::ended_at_comment))]
    fn end_before_comment(&mut self) -> Result<(), AllocError>
        ensures { OnOk result (draft_view self.new ≡ ended_at_comment (draft_view self.old)) }
    {
        if self.is_whole || self.is_apart {
            self.end_all()
        } else {
            Ok(())
        }
    }

    // Ends the message before a keyword that isn't of it.
    #[tactic(auto, unfolding(crate::specs::Drafts::ended_before))]
    fn end_before_keyword(&mut self, is_obsolete: bool, keyword: Keyword) -> Result<(), AllocError>
        ensures { OnOk result (draft_view self.new ≡ ended_before is_obsolete keyword (draft_view self.old)) }
    {
        if self.entry.ends_before(keyword) || self.entry.is_obsolete != is_obsolete {
            self.end_message()
        } else {
            Ok(())
        }
    }

    // Begins a message at its first keyword.
    #[tactic(auto, unfolding(crate::specs::Drafts::message_begun))]
    fn begin_message(&mut self, line: usize, is_obsolete: bool)
        ensures { draft_view self.new ≡ message_begun line is_obsolete (draft_view self.old) }
    {
        if self.is_begun {
            return;
        }
        self.entry.line = line;
        self.entry.is_obsolete = is_obsolete;
        self.is_begun = true;
    }

    // Takes a keyword to the message.
    fn take_keyword(&mut self, line: usize, is_obsolete: bool, keyword: Keyword)
        ensures { draft_view self.new ≡ keyword_of_message line is_obsolete keyword (draft_view self.old) }
    {
        match keyword {
            Keyword::Domain => (),
            Keyword::Context | Keyword::Id | Keyword::PluralId => self.begin_message(
                line,
                is_obsolete,
            ),
            Keyword::Form(_) => {
                self.begin_message(line, is_obsolete);
                self.is_whole = true;
            }
        }
    }

    // Begins the text of a keyword. Returns why it doesn't fit, if nothing else is wrong.
    #[tactic(auto, unfolding(crate::specs::Drafts::placed, crate::specs::Drafts::with_field))]
    fn place(&mut self, line: usize, keyword: Keyword) -> Option<Cause>
        ensures { (draft_view self.new, result) ≡ placed line keyword (draft_view self.old) }
    {
        match self.entry.place_of(keyword) {
            Ok(place) => {
                self.field = Some(Field::new(self.alloc, place, line));
                None
            }
            Err(cause) => {
                self.field = Some(Field::nowhere(self.alloc));
                if self.entry.is_faulty {
                    None
                } else {
                    Some(cause)
                }
            }
        }
    }

    // Reads a keyword. Returns why it doesn't fit.
    #[tactic(auto, unfolding(crate::specs::Drafts::keyword_read))]
    fn read_keyword(
        &mut self,
        line: usize,
        is_obsolete: bool,
        keyword: Keyword,
    ) -> Result<Option<Cause>, AllocError>
        ensures { IfOk result (λ cause. (draft_view self.new, cause) ≡ keyword_read line is_obsolete keyword (draft_view self.old)) }
    {
        self.end_field()?;
        self.end_before_keyword(is_obsolete, keyword)?;
        self.take_keyword(line, is_obsolete, keyword);
        Ok(self.place(line, keyword))
    }

    // Ends a message whose `msgstr` was read, behind an empty line.
    #[tactic(auto, unfolding(crate::specs::Drafts::ended_if_whole))]
    fn end_if_whole(&mut self) -> Result<(), AllocError>
        ensures { OnOk result (draft_view self.new ≡ ended_if_whole (draft_view self.old)) }
    {
        if self.is_whole && self.is_apart {
            self.end_message()
        } else {
            Ok(())
        }
    }

    // Passes over what follows in a line that begins with nothing known.
    #[tactic(auto, unfolding(crate::specs::Drafts::unknown_read, crate::specs::Drafts::with_field))]
    fn leave_field(&mut self) -> Result<(), AllocError>
        ensures { OnOk result (draft_view self.new ≡ unknown_read (draft_view self.old)) }
    {
        self.end_field()?;
        self.end_if_whole()?;
        self.field = Some(Field::nowhere(self.alloc));
        Ok(())
    }

    // Reads a text from behind its first quotation mark on. Returns what follows it.
    #[tactic(auto, unfolding(crate::specs::Drafts::with_field))]
    fn read_text<'l>(&mut self, line: &'l [u8]) -> Result<&'l [u8], ReadError>
        ensures said { TextGoesOn line.now (draft_view self.old) (draft_view self.new) result }
        ensures shorter { IfOk result (λ rest. length rest.now < length line.now) }
    {
        match &mut self.field {
            Some(field) => field.read_text(line),
            None => {
                self.field = Some(Field::nowhere(self.alloc));
                Err(ReadError::Fault(Cause::StrayText))
            }
        }
    }

    // Reads a text from behind its first quotation mark on.
    #[tactic(auto, using(crate::proofs::Readings::text_taken))]
    fn read_quoted<'l>(&mut self, line: &'l [u8]) -> Result<Progress<'l>, AllocError>
        ensures read { IfOk result (λ it. TakesFieldText (draft_view self.old) line.now (draft_view self.new) it) }
        ensures shorter { IfOk result (λ it. IsFurther it line.now) }
    {
        match self.read_text(line) {
            Ok(after) => Ok(Progress::Left(after)),
            Err(ReadError::Fault(cause)) => Ok(Progress::Done(Some(cause))),
            Err(ReadError::Memory) => Err(AllocError),
        }
    }

    // Reads what stands at the front of a line.
    fn read_front<'l>(
        &mut self,
        number: usize,
        is_obsolete: bool,
        line: &'l [u8],
    ) -> Result<Progress<'l>, AllocError>
        ensures read { IfOk result (λ it. TakesFront number is_obsolete (draft_view self.old) line.now (draft_view self.new) it) }
        ensures shorter { IfOk result (λ it. IsFurther it line.now) }
    {
        match front_of(line) {
            Front::End => Ok(Progress::Done(None)),
            Front::Keyword(keyword, after) => {
                match self.read_keyword(number, is_obsolete, keyword)? {
                    None => Ok(Progress::Left(after)),
                    Some(cause) => Ok(Progress::Done(Some(cause))),
                }
            }
            Front::Quote(text) => self.read_quoted(text),
            Front::Bad(cause) => {
                self.leave_field()?;
                Ok(Progress::Done(Some(cause)))
            }
        }
    }

    // Reads keywords and texts up to the end of the line, or its first fault, which is returned.
    fn read_fields(
        &mut self,
        number: usize,
        is_obsolete: bool,
        line: &[u8],
    ) -> Result<Option<Cause>, AllocError>
        ensures { IfOk result (λ cause. ReadsFields number is_obsolete (draft_view self.old) line.now (draft_view self.new, cause)) }
    {
        let mut rest = line;
        'fronts: loop {
            match self.read_front(number, is_obsolete, rest)? {
                Progress::Left(after) => rest = after,
                Progress::Done(fault) => return Ok(fault),
            }
        }
    }

    // Tells at most one fault of a line of keywords and texts.
    fn check_line(
        &mut self,
        number: usize,
        line: &[u8],
        fault: Option<Cause>,
    ) -> Result<(), AllocError>
        ensures { OnOk result (draft_view self.new ≡ line_checked number line.now fault (draft_view self.old)) }
    {
        match fault {
            Some(cause) => self.tell(number, cause),
            None if is_utf8(line) => Ok(()),
            None => self.tell(number, Cause::NotUtf8),
        }
    }

    // Reads keywords and texts, and tells at most one fault of the line.
    fn read_told(&mut self, number: usize, is_obsolete: bool, line: &[u8]) -> Result<(), AllocError>
        ensures { OnOk result (ReadsTold number is_obsolete line.now (draft_view self.old) (draft_view self.new)) }
    {
        let fault = self.read_fields(number, is_obsolete, line)?;
        self.check_line(number, line, fault)?;
        Ok(())
    }

    // Tells bytes of a comment that are no UTF-8.
    #[tactic(auto, unfolding(crate::specs::Drafts::comment_checked))]
    fn check_comment(&mut self, number: usize, comment: &[u8]) -> Result<(), AllocError>
        ensures { OnOk result (draft_view self.new ≡ comment_checked number comment.now (draft_view self.old)) }
    {
        if is_utf8(comment) {
            Ok(())
        } else {
            self.note(number, Cause::NotUtf8)
        }
    }

    // Reads a comment, from behind its `#` on, and the flags in it.
    #[tactic(auto, unfolding(crate::specs::Drafts::flags_read))]
    fn read_comment(
        &mut self,
        number: usize,
        comment: &[u8],
        flags: &[u8],
    ) -> Result<(), AllocError>
        ensures { OnOk result (draft_view self.new ≡ comment_checked number comment.now (flags_read flags.now (ended_at_comment (draft_view self.old)))) }
    {
        self.end_before_comment()?;
        add_flags(&mut self.entry.flags, flags)?;
        self.check_comment(number, comment)
    }

    // Passes an empty line.
    #[tactic(auto, unfolding(crate::specs::Drafts::behind_empty))]
    fn pass_empty(&mut self)
        ensures { draft_view self.new ≡ behind_empty (draft_view self.old) }
    {
        self.entry.is_faulty = self.entry.is_faulty && self.is_begun;
        self.is_apart = true;
    }

    // Ends a line that isn't empty.
    #[tactic(auto, unfolding(crate::specs::Drafts::behind_line))]
    fn end_line(&mut self)
        ensures { draft_view self.new ≡ behind_line (draft_view self.old) }
    {
        self.is_apart = false;
    }

    // Reads a line.
    pub(crate) fn read_line(&mut self, number: usize, line: &[u8]) -> Result<(), AllocError>
        ensures { OnOk result (ReadsLine number line.now (draft_view self.old) (draft_view self.new)) }
    {
        match kind_of(line) {
            LineKind::Empty => self.pass_empty(),
            LineKind::Comment(comment, flags) => {
                self.read_comment(number, comment, flags)?;
                self.end_line();
            }
            LineKind::Fields(is_obsolete, fields) => {
                self.read_told(number, is_obsolete, fields)?;
                self.end_line();
            }
        }
        Ok(())
    }

    // What was read, behind the last line.
    pub(crate) fn catalog(&mut self) -> Result<Catalog, AllocError>
        ensures { IfOk result (λ catalog. catalog_view catalog ≡ catalog_at (all_ended (draft_view self.old))) }
    {
        self.end_all()?;
        Ok(Catalog {
            entries: mem::replace(&mut self.entries, Vec::new(self.alloc)),
            faults: mem::replace(&mut self.faults, Vec::new(self.alloc)),
        })
    }
}
