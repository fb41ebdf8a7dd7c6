//! A catalog, read from the bytes of a file.

ghost use Rattle.std.specs.Prelude.{◌≡◌, IfOk, option_copied, option_map};
ghost use Rattle.std.specs.List.{find};
ghost use Rattle.po_catalog.specs.Catalogs.{message_view, messages_view};
ghost use Rattle.po_catalog.specs.Headers.{charset_of, field_of, is_header};
ghost use Rattle.po_catalog.specs.ReadCatalogs.{ReadsCatalog, behind_mark, catalog_view};
ghost use Rattle.po_catalog.specs.Inner.DraftViews.{AddsLines, draft_view};

use crate::entry::{Entry, Text};
use crate::fault::Fault;
use crate::header::{charset_in, field_in};
use crate::line::Lines;
use crate::reader::Reader;
use std::alloc::{AllocError, Global};

/// A catalog: its messages, and what is wrong in it.
#[derive(Debug, Drop)]
pub struct Catalog {
    /// The messages, in their order; the header is one of them.
    pub entries: Vec<Entry>,
    /// What is wrong, in the order in which it is met.
    pub faults: Vec<Fault>,
}

impl Catalog {
    /// Reads a catalog. Any bytes are read: what is wrong is a fault with its line, and everything
    /// else is read. Memory is taken for the texts; the error is that it ran out.
    pub fn read(alloc: Global, bytes: &[u8]) -> Result<Catalog, AllocError>
        ensures { ReadsCatalog bytes.now result }
    {
        let mut reader = Reader::new(alloc);
        let catalog = read_lines(&mut reader, without_mark(bytes));
        drop(reader);
        catalog
    }

    /// The header: the first message with an empty id, no context, and a text.
    #[tactic(auto, using(crate::proofs::HeaderLines::header_here, crate::proofs::HeaderLines::header_later, crate::proofs::HeaderLines::header_nowhere))]
    pub fn header(&self) -> Option<&Entry>
        ensures { option_map message_view (option_copied result) ≡ find is_header (messages_view self.now) }
    {
        for entry in &self.entries {
            if entry.is_header() {
                return Some(entry);
            }
        }
        None
    }

    /// The value of a field of the header, without white space around it. The name is compared
    /// without regard to case; the first field of this name that has a value counts.
    pub fn header_field(&self, name: &[u8]) -> Option<&[u8]>
        ensures { option_copied result ≡ field_of name.now (messages_view self.now) }
    {
        let text: &Text = self.header()?.forms.first()?;
        field_in(&text.bytes, name)
    }

    /// The charset that the header's `Content-Type` names, if it does.
    pub fn charset(&self) -> Option<&[u8]>
        ensures { option_copied result ≡ charset_of (messages_view self.now) }
    {
        charset_in(self.header_field(b"Content-Type")?)
    }
}

// The catalog of what was read, and of further lines.
fn read_lines(reader: &mut Reader, bytes: &[u8]) -> Result<Catalog, AllocError>
    ensures { IfOk result (λ catalog. AddsLines (draft_view reader.old) bytes.now (catalog_view catalog)) }
{
    let mut lines = Lines::of(bytes);
    'lines: while let Some(line) = lines.next_line() {
        reader.read_line(line.number, line.bytes)?;
    }
    reader.catalog()
}

// The bytes behind the mark of UTF-8 at their front, if it is there.
fn without_mark(bytes: &[u8]) -> &[u8]
    ensures { result.now ≡ behind_mark bytes.now }
{
    match bytes.strip_prefix(b"\xef\xbb\xbf") {
        Some(rest) => rest,
        None => bytes,
    }
}
