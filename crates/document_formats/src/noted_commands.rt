//! Notes as commands of a workflow of GitHub Actions.

ghost use Rattle.std.specs.Prelude.{◌≡◌, IfOk, string_bytes};
ghost use Rattle.document_formats.specs.NotedFormats.{note_command_in, note_located, noted_commands};
ghost use Rattle.document_notes.specs.DocumentNotes as noted;
ghost use Rattle.document_notes.specs.DocumentNotes.{note_view};
ghost use Rattle.finding_formats.specs.LocatedFindings.{located_view};

use crate::commands::{NO_TOTALS, file_commands};
use crate::note_code::NoteCode;
use document_notes::{DocumentNote, DocumentNotes};
use document_report::Report;
use finding_formats::{Format, Located, Notice, Told, print_located};
use message_report::Severity;
use plural_documents::{LinePrinter, push_lines};
use std::alloc::{AllocError, Global};

// A command for each finding in a file, and then for each note.
pub(crate) fn noted_commands(
    alloc: Global,
    file: &str,
    report: &Report<'_>,
    notes: &DocumentNotes<'_>,
) -> Result<String, AllocError>
    ensures { IfOk result (λ text. string_bytes text ≡ noted_commands file.now report.now notes.now) }
{
    let mut text = file_commands(alloc, file, report)?;
    let noted = notes.as_slice();
    push_lines(alloc, &mut NoteCommands { file }, noted, &mut text)?;
    Ok(text)
}

// The commands of notes in a file.
#[derive(Drop)]
struct NoteCommands<'f> {
    file: &'f str,
}

impl<'f, 'a> LinePrinter<DocumentNote<'a>> for NoteCommands<'f> {
    ghost Seen = { noted.NoteAt };

    ghost seen = { note_view };

    ghost line_of = { λ commands. note_command_in commands.file.now };

    fn push(
        &mut self,
        alloc: Global,
        note: &DocumentNote<'a>,
        text: &mut String,
    ) -> Result<(), AllocError> {
        let line = note.line(alloc)?;
        let code = NoteCode::of(note).as_str();
        let located = note_located(self.file, code, line.as_str());
        let command = print_located(alloc, Format::GitHub, &[located], NO_TOTALS)?;
        text.push_str(command.as_str())
    }
}

// A note with a code, told of a file.
fn note_located<'a>(file: &'a str, code: &'a str, text: &'a str) -> Located<'a>
    ensures { located_view result ≡ note_located file.now code.now text.now }
{
    Located {
        line: None,
        placeholder: None,
        told: Told::Notice(Notice {
            file,
            severity: Severity::Note,
            code,
            text,
        }),
    }
}
