//! The check of translators' files.

ghost use Rattle.std.specs.Prelude.{◌≡◌, ◌≢◌, IfErr, IfOk, string_bytes};
ghost use Rattle.std.specs.Io.KnownBytes.{Appends};
ghost use Rattle.form_commands.specs.FormsAnswers.{forms_origin};
ghost use Rattle.form_commands.specs.TranslationReports.{IsToldReport, told_verdict, verdict_told};
ghost use Rattle.form_commands.specs.Inner.RunSteps.{IsReport};
ghost use Rattle.plural_documents.specs.Inputs.{IsReadAfterResult};

use crate::error::{FormsError, Verdict};
use crate::excused::is_excused;
use crate::misspelt::is_misspelt;
use crate::note::write_notes;
use crate::own_numbers::with_left_numbers;
use crate::pattern_notes::translation_notes;
use crate::run::{document_of, refused};
use finding_formats::{Format, Located, Notice, Told, Totals, print_located};
use icu_plurals::JsonProvider;
use message_report::{Cause, Found, MessageFile, Place, RulesOfLocales, Severity, found_in_files};
use plural_documents::{sum, write_output};
use plural_fallback::FallbackProvider;
use serde_json::Value;
use std::alloc::{AllocError, Global};
use std::io::{Read, Write};
use translation_files::{FileMessages, no_messages, read_messages};

/// What is in a file.
#[derive(Clone, Copy)]
pub enum Content<'a> {
    /// These bytes.
    Bytes(&'a [u8]),
    /// It can't be read: why, and what to do.
    Unread(&'a str),
}

/// A file of messages, of any kind.
#[derive(Clone, Copy)]
pub struct TranslationFile<'a> {
    /// Its name.
    pub name: &'a str,
    /// What is in it.
    pub content: Content<'a>,
}

/// How files are checked.
#[derive(Clone, Copy)]
pub struct Checking<'a> {
    /// The format in which is told what is found.
    pub format: Format,
    /// The locale of all files, in place of their own.
    pub locale: Option<&'a str>,
    /// The codes of what isn't told.
    pub ignored: &'a [&'a str],
    /// Whether notes count as faults.
    pub is_strict: bool,
}

/// Writes what is found in translators' files, with their lines, file by file: one whole report in
/// the format, whose totals give the verdict; and then, in the notes, the key of the rules of each
/// locale, if that isn't the locale.
///
/// After an error nothing was written, except by a failed write. It allocates.
pub fn check_translations<R: Read, W: Write, E: Write>(
    alloc: Global,
    files: &[TranslationFile<'_>],
    checking: Checking<'_>,
    rules: &mut R,
    writer: &mut W,
    notes: &mut E,
) -> Result<Verdict, FormsError>
    ensures report { IfOk result (IsToldReport checking.entry.format checking.entry.is_strict (W.contents writer.old) (W.contents writer.new)) }
    ensures reads { IsReadAfterResult forms_origin (R.remaining rules.old) (R.remaining rules.new) result }
    ensures writes_nothing { IfErr result (λ e. e ≢ FormsError.Write → (writer.new ≡ writer.old) × (notes.new ≡ notes.old)) }
{
    match document_of(alloc, rules) {
        Ok(document) => tell_files(alloc, &document, files, checking, writer, notes),
        Err(error) => Err(error),
    }
}

// Writes what is found in files under the rules of a document.
fn tell_files<W: Write, E: Write>(
    alloc: Global,
    document: &Value,
    files: &[TranslationFile<'_>],
    checking: Checking<'_>,
    writer: &mut W,
    notes: &mut E,
) -> Result<Verdict, FormsError>
    ensures report { IfOk result (IsToldReport checking.entry.format checking.entry.is_strict (W.contents writer.old) (W.contents writer.new)) }
    ensures short { IfErr result (λ e. e ≢ FormsError.TooLong) }
    ensures writes_nothing { IfErr result (λ e. e ≢ FormsError.Write → (writer.new ≡ writer.old) × (notes.new ≡ notes.old)) }
{
    match JsonProvider::from_value(alloc, document) {
        Ok(provider) => {
            let source = FallbackProvider {
                provider: &provider,
                locales: document,
            };
            match report_of(alloc, document, &source, files, checking) {
                Ok(report) => write_report(&report, writer, notes),
                Err(_) => Err(FormsError::Memory),
            }
        }
        Err(error) => Err(refused(error)),
    }
}

// What is printed.
#[derive(Drop)]
struct Report {
    text: String,
    notes: String,
    verdict: Verdict,
}

// Writes a report.
fn write_report<W: Write, E: Write>(
    report: &Report,
    writer: &mut W,
    notes: &mut E,
) -> Result<Verdict, FormsError>
    ensures ok { IfOk result (λ verdict. (verdict ≡ report.now.verdict)
        × Appends (W.contents writer.old) (W.contents writer.new) (string_bytes report.now.text)) }
    ensures err { IfErr result (λ e. e ≡ FormsError.Write) }
{
    match write_output(writer, report.text.as_str().as_bytes()) {
        Ok(()) => write_notes(Ok(report.verdict), report.notes.as_str(), notes),
        Err(_) => Err(FormsError::Write),
    }
}

// What is found in files.
fn report_of<S: RulesOfLocales>(
    alloc: Global,
    document: &Value,
    source: &S,
    files: &[TranslationFile<'_>],
    checking: Checking<'_>,
) -> Result<Report, AllocError>
    ensures { IfOk result (IsReport checking.entry.format checking.entry.is_strict) }
{
    let read = read_all(alloc, source, files, checking.locale)?;
    let messages = messages_of(alloc, files, read.as_slice())?;
    let mut found = Vec::new(alloc);
    for file in messages.iter() {
        found.push(found_in_files(alloc, source, &[*file])?)?;
    }
    let located = locate_all(
        alloc,
        source,
        messages.as_slice(),
        read.as_slice(),
        found.as_slice(),
        checking.ignored,
    )?;
    let totals = totals_of(located.as_slice(), read.as_slice(), found.as_slice())?;
    Ok(Report {
        text: print_located(alloc, checking.format, located.as_slice(), totals)?,
        notes: translation_notes(alloc, document, messages.as_slice())?,
        verdict: verdict_of(totals, checking.is_strict),
    })
}

// The verdict of totals; a note is a fault, if that is asked for.
fn verdict_of(totals: Totals, is_strict: bool) -> Verdict
    ensures { result ≡ told_verdict is_strict totals }
{
    let verdict = verdict_told(totals);
    if is_strict { verdict.strict() } else { verdict }
}

// The verdict of totals, whatever is asked for.
fn verdict_told(totals: Totals) -> Verdict
    ensures { result ≡ verdict_told totals }
{
    if totals.faults > 0 {
        Verdict::Faults
    } else if totals.notes > 0 {
        Verdict::Noted
    } else {
        Verdict::Complete
    }
}

// The messages of each file.
fn read_all<S: RulesOfLocales>(
    alloc: Global,
    source: &S,
    files: &[TranslationFile<'_>],
    locale: Option<&str>,
) -> Result<Vec<FileMessages>, AllocError> {
    let mut read = Vec::new(alloc);
    for file in files {
        read.push(match file.content {
            Content::Bytes(bytes) => read_messages(alloc, file.name, bytes, source, locale)?,
            Content::Unread(cause) => no_messages(alloc, cause)?,
        })?;
    }
    Ok(read)
}

// The documents of files, with the names by which they are told.
fn messages_of<'a>(
    alloc: Global,
    files: &[TranslationFile<'a>],
    read: &'a [FileMessages],
) -> Result<Vec<MessageFile<'a>>, AllocError> {
    let mut messages = Vec::new(alloc);
    for (file, it) in files.iter().zip(read.iter()) {
        let name = match &it.name {
            Some(name) => name.as_str(),
            None => file.name,
        };
        let document = &it.document;
        messages.push(MessageFile { name, document })?;
    }
    Ok(messages)
}

// What is told of each file, in its order: that of no line first, then by lines.
fn locate_all<'a, S: RulesOfLocales>(
    alloc: Global,
    source: &S,
    messages: &[MessageFile<'a>],
    read: &'a [FileMessages],
    found: &[Found<'a>],
    ignored: &[&str],
) -> Result<Vec<Located<'a>>, AllocError> {
    let mut all = Vec::new(alloc);
    for ((file, it), found) in messages.iter().zip(read.iter()).zip(found.iter()) {
        let mut located = Vec::new(alloc);
        push_notices(&mut located, file.name, it, ignored)?;
        push_findings(alloc, source, &mut located, it, found, ignored)?;
        located.sort_by_key(|it| it.line)?;
        all.extend_from_slice(located.as_slice())?;
    }
    Ok(all)
}

// Appends what is told of a file.
fn push_notices<'a>(
    located: &mut Vec<Located<'a>>,
    file: &'a str,
    read: &'a FileMessages,
    ignored: &[&str],
) -> Result<(), AllocError> {
    for it in read.notices.iter() {
        let told = Told::Notice(Notice {
            file,
            severity: it.severity,
            code: it.code.as_str(),
            text: it.text.as_str(),
        });
        push_told(located, it.line, None, told, ignored)?;
    }
    Ok(())
}

// Appends what is found in the messages of a file, unless the message excuses it, by numbers that
// have no branch of their own. Of a misspelt keyword it is told that it is no category, and not
// that the category is missing.
fn push_findings<'a, S: RulesOfLocales>(
    alloc: Global,
    source: &S,
    located: &mut Vec<Located<'a>>,
    read: &'a FileMessages,
    found: &Found<'a>,
    ignored: &[&str],
) -> Result<(), AllocError> {
    let all = found.findings();
    for (index, it) in all.iter().enumerate() {
        let behind = all.get(index.saturating_add(1)..).unwrap_or(&[]);
        if is_misspelt(alloc, it, behind)? || is_excused(alloc, read, it)? {
            continue;
        }
        let Some(told) = with_left_numbers(alloc, source, &read.document, it)? else {
            continue;
        };
        let line = read.line_at(&it.place);
        let placeholder = read.placeholder_at(&it.place);
        push_told(located, line, placeholder, Told::Finding(told), ignored)?;
    }
    Ok(())
}

// Appends what is told, unless its code is ignored, or that of the keys that it counts.
fn push_told<'a>(
    located: &mut Vec<Located<'a>>,
    line: Option<u64>,
    placeholder: Option<&'a str>,
    told: Told<'a>,
    ignored: &[&str],
) -> Result<(), AllocError> {
    let code = told.code();
    let counted = if counts_keys(told) {
        "not-a-form"
    } else {
        code
    };
    if ignored.iter().any(|it| *it == code || *it == counted) {
        return Ok(());
    }
    located.push(Located {
        line,
        placeholder,
        told,
    })?;
    Ok(())
}

// Whether this counts further keys of a message that name no form.
fn counts_keys(told: Told<'_>) -> bool {
    match told {
        Told::Finding(finding) => match (finding.place, finding.cause) {
            (Place::Message(_), Cause::More(_)) => true,
            _ => false,
        },
        Told::Notice(_) => false,
    }
}

// The totals of files.
fn totals_of(
    located: &[Located<'_>],
    read: &[FileMessages],
    found: &[Found<'_>],
) -> Result<Totals, AllocError> {
    let mut totals = Totals {
        messages: 0,
        forms: 0,
        faults: 0,
        notes: 0,
        left_out: 0,
    };
    for (it, read) in found.iter().zip(read.iter()) {
        let counts = it.counts();
        let checked = sum(read.counts.checked, read.counts.noted)?;
        totals.messages = sum(totals.messages, counts.messages.max(checked))?;
        totals.forms = sum(totals.forms, counts.forms)?;
        totals.left_out = sum(totals.left_out, read.counts.left_out)?;
    }
    for it in located {
        let count = count_of(it.told);
        match it.told.severity() {
            Severity::Error => totals.faults = sum(totals.faults, count)?,
            Severity::Note => totals.notes = sum(totals.notes, count)?,
        }
    }
    Ok(totals)
}

// How many faults or notes are told by this.
fn count_of(told: Told<'_>) -> u64 {
    match told {
        Told::Finding(finding) => match finding.cause {
            Cause::More(count) => count,
            _ => 1,
        },
        Told::Notice(_) => 1,
    }
}
