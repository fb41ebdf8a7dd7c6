//! The answers to questions, over any readers and writer.

ghost use Rattle.std.specs.Prelude.{◌≡◌, ◌≢◌, [], IfErr, IfOk, IsTrue, List, ℕ};
ghost use Rattle.form_commands.specs.FormsAnswers.{Answers, IsAnsweredLines, IsAnsweredText, IsChecked, IsCheckedAs, IsGettextAnswer, IsListAnswer, IsNumbersAnswer, forms_origin, verdict_of_counts};
ghost use Rattle.form_commands.specs.FormsErrors.{is_of_rules};
ghost use Rattle.form_commands.specs.Inner.FormsInputFaults.{refused_rules};
ghost use Rattle.form_commands.specs.Inner.NoteSteps.{IsKeptNote, NotesAfter, Writes};
ghost use Rattle.form_commands.specs.Inner.RunSteps.{AnswersFirst, AnswersLines, Checks, GivesDocument, GivesJsonValue, GivesRules, GivesRulesIn, IsFoundBy, Reports, WritesAnswer, WritesText, result_of_lines, verdict_by};
ghost use Rattle.form_commands.specs.KeyNotes.{AreFileNotes, IsNote, IsNoted};
ghost use Rattle.number_lines.specs.NumberAnswers.{command_words_view};
ghost use Rattle.plural_documents.specs.Inputs.{IsInput, IsReadAfterResult};
ghost use Rattle.rules_outline.specs.KeptRules.{IsServedBy};
ghost use Rattle.serde_json.specs.View.{view};

use crate::error::{FormsError, LanguageError, Verdict};
use crate::gettext::gettext_line;
use crate::language::language_of;
use crate::list::list_text;
use crate::note::{note_of, notes_of, write_notes};
use crate::unknown_language::{has_roots_key, known_in};
use icu_plurals::{JsonError, JsonProvider};
use message_report::run::run_as;
use message_report::{Counts, MessageFile, ReportLines, ReportPrinter};
use number_lines::{LinesError, Printed, answer_input, numbers_text};
use plural_documents::{JsonTextError, json_value, read_input};
use plural_fallback::{FallbackProvider, Part};
use rules_outline::{KeptRules, kept_rules};
use serde_json::Value;
use std::alloc::{AllocError, Global};
use std::io::{Read, Write};

/// Writes the forms of a language.
///
/// The rules are read to their end, or to one byte past the limit of 4194304 bytes, here and in the
/// other calls. After an error nothing was written, except by a failed write
/// ([`FormsError::Write`]), which took a beginning of the lines. It allocates.
pub fn list_forms<R: Read, W: Write>(
    alloc: Global,
    part: Part,
    locale: &str,
    rules: &mut R,
    writer: &mut W,
) -> Result<Verdict, FormsError>
    // The answer is that of some input: what remained in the reader, if that is known.
    ensures answers { (input : List ℕ) × IsInput (R.remaining rules.old) input
        × IsAnsweredText (Answers (IsListAnswer part locale.now) part locale.now) input (W.contents writer.old) (W.contents writer.new) result }
    ensures reads { IsReadAfterResult forms_origin (R.remaining rules.old) (R.remaining rules.new) result }
    ensures writes_nothing { IfErr result (λ e. e ≢ FormsError.Write → writer.new ≡ writer.old) }
{
    match rules_of(alloc, part, locale, rules) {
        Ok(kept) => write_answer(list_of(alloc, &kept, part, locale), writer),
        Err(error) => Err(error),
    }
}

/// Writes a line for each of the numbers: its category, or why it has none; and then, in the notes,
/// the key of the rules, if that isn't the locale.
///
/// After an error nothing was written, except by a failed write, to the one or the other: of the
/// notes something was written only after all lines. It allocates.
pub fn answer_numbers<R: Read, W: Write, E: Write>(
    alloc: Global,
    part: Part,
    locale: &str,
    numbers: &[&str],
    rules: &mut R,
    writer: &mut W,
    notes: &mut E,
) -> Result<Verdict, FormsError>
    ensures answers { (input : List ℕ) × IsInput (R.remaining rules.old) input
        × IsNoted (λ document note. IsNote document [] part locale.now note)
        (IsAnsweredText (Answers (IsNumbersAnswer (command_words_view numbers.now)) part locale.now) input (W.contents writer.old) (W.contents writer.new))
        input (E.contents notes.old) (E.contents notes.new) result }
    ensures reads { IsReadAfterResult forms_origin (R.remaining rules.old) (R.remaining rules.new) result }
    ensures writes_nothing { IfErr result (λ e. e ≢ FormsError.Write → (writer.new ≡ writer.old) × (notes.new ≡ notes.old)) }
{
    match rules_of(alloc, part, locale, rules) {
        Ok(kept) => numbers_by(alloc, &kept, part, locale, numbers, writer, notes),
        Err(error) => Err(error),
    }
}

// Writes the lines of numbers by the rules of a document, and the note of the key.
fn numbers_by<W: Write, E: Write>(
    alloc: Global,
    kept: &KeptRules,
    part: Part,
    locale: &str,
    numbers: &[&str],
    writer: &mut W,
    notes: &mut E,
) -> Result<Verdict, FormsError>
    ensures answers { NotesAfter (Writes (AnswersFirst (IsNumbersAnswer (command_words_view numbers.now)) (IsFoundBy kept.now part locale.now))
        (W.contents writer.old) (W.contents writer.new))
        (IsKeptNote kept.now part locale.now) (E.contents notes.old) (E.contents notes.new) result }
    ensures writes_nothing { IfErr result (λ e. e ≢ FormsError.Write → (writer.new ≡ writer.old) × (notes.new ≡ notes.old)) }
{
    match note_of(alloc, kept, part, locale) {
        Ok(note) => {
            let written = categories_of(alloc, kept, part, locale, numbers);
            let answer = write_answer(written, writer);
            write_notes(answer, note.as_str(), notes)
        }
        Err(_) => Err(FormsError::Memory),
    }
}

/// Writes a line for each line of the numbers: its category, or why it has none; and then, in the
/// notes, the key of the rules, if that isn't the locale.
///
/// The numbers are read after the rules, 4096 bytes at a time. If the rules are at fault
/// ([`FormsError::is_of_rules`]), none is read, and nothing is written; after another error the
/// first lines may have been answered. Of the notes something was written only by a failed write,
/// and after all lines. It allocates.
pub fn answer_lines<R: Read, N: Read, W: Write, E: Write>(
    alloc: Global,
    part: Part,
    locale: &str,
    rules: &mut R,
    numbers: &mut N,
    writer: &mut W,
    notes: &mut E,
) -> Result<Verdict, FormsError>
    ensures answers { (input : List ℕ) × IsInput (R.remaining rules.old) input
        × IsNoted (λ document note. IsNote document [] part locale.now note)
        (IsAnsweredLines part locale.now input (N.remaining numbers.old) (N.remaining numbers.new) (W.contents writer.old) (W.contents writer.new))
        input (E.contents notes.old) (E.contents notes.new) result }
    ensures reads { IsReadAfterResult forms_origin (R.remaining rules.old) (R.remaining rules.new) result }
    ensures touches_nothing { IfErr result (λ e. IsTrue (is_of_rules e) → (numbers.new ≡ numbers.old) × (writer.new ≡ writer.old)) }
    ensures notes_nothing { IfErr result (λ e. e ≢ FormsError.Write → notes.new ≡ notes.old) }
{
    match rules_of(alloc, part, locale, rules) {
        Ok(kept) => noted_lines(alloc, &kept, part, locale, numbers, writer, notes),
        Err(error) => Err(error),
    }
}

// Writes the answers to the lines of the numbers by the rules of a document, and the note of the
// key.
fn noted_lines<N: Read, W: Write, E: Write>(
    alloc: Global,
    kept: &KeptRules,
    part: Part,
    locale: &str,
    numbers: &mut N,
    writer: &mut W,
    notes: &mut E,
) -> Result<Verdict, FormsError>
    ensures answers { NotesAfter
        (AnswersLines (IsFoundBy kept.now part locale.now) (N.remaining numbers.old) (N.remaining numbers.new) (W.contents writer.old) (W.contents writer.new))
        (IsKeptNote kept.now part locale.now) (E.contents notes.old) (E.contents notes.new) result }
    ensures touches_nothing { IfErr result (λ e. IsTrue (is_of_rules e) → (numbers.new ≡ numbers.old) × (writer.new ≡ writer.old)) }
    ensures notes_nothing { IfErr result (λ e. e ≢ FormsError.Write → notes.new ≡ notes.old) }
{
    match note_of(alloc, kept, part, locale) {
        Ok(note) => {
            let answer = lines_by(alloc, kept, part, locale, numbers, writer);
            write_notes(answer, note.as_str(), notes)
        }
        Err(_) => Err(FormsError::Memory),
    }
}

/// Writes how gettext's files number the forms that whole numbers of a language have: a line of the
/// kind of `Plural-Forms`; and then, in the notes, the key of the rules, if that isn't the locale.
/// The line's expression has the place of a number's form as its value
/// ([`crate::laws::forms_are_chosen`]).
///
/// After an error nothing was written, except by a failed write, as by [`answer_numbers`]. It
/// allocates.
pub fn write_gettext<R: Read, W: Write, E: Write>(
    alloc: Global,
    part: Part,
    locale: &str,
    rules: &mut R,
    writer: &mut W,
    notes: &mut E,
) -> Result<Verdict, FormsError>
    ensures answers { (input : List ℕ) × IsInput (R.remaining rules.old) input
        × IsNoted (λ document note. IsNote document [] part locale.now note)
        (IsAnsweredText (Answers IsGettextAnswer part locale.now) input (W.contents writer.old) (W.contents writer.new))
        input (E.contents notes.old) (E.contents notes.new) result }
    ensures reads { IsReadAfterResult forms_origin (R.remaining rules.old) (R.remaining rules.new) result }
    ensures writes_nothing { IfErr result (λ e. e ≢ FormsError.Write → (writer.new ≡ writer.old) × (notes.new ≡ notes.old)) }
{
    match rules_of(alloc, part, locale, rules) {
        Ok(kept) => gettext_by(alloc, &kept, part, locale, writer, notes),
        Err(error) => Err(error),
    }
}

// Writes the line for gettext by the rules of a document, and the note of the key.
fn gettext_by<W: Write, E: Write>(
    alloc: Global,
    kept: &KeptRules,
    part: Part,
    locale: &str,
    writer: &mut W,
    notes: &mut E,
) -> Result<Verdict, FormsError>
    ensures answers { NotesAfter (Writes (AnswersFirst IsGettextAnswer (IsFoundBy kept.now part locale.now)) (W.contents writer.old) (W.contents writer.new))
        (IsKeptNote kept.now part locale.now) (E.contents notes.old) (E.contents notes.new) result }
    ensures writes_nothing { IfErr result (λ e. e ≢ FormsError.Write → (writer.new ≡ writer.old) × (notes.new ≡ notes.old)) }
{
    match note_of(alloc, kept, part, locale) {
        Ok(note) => {
            let written = gettext_of(alloc, kept, part, locale);
            let answer = write_answer(written, writer);
            write_notes(answer, note.as_str(), notes)
        }
        Err(_) => Err(FormsError::Memory),
    }
}

/// Writes the report of files of messages: a line for each fault, and one with the counts; and
/// then, in the notes, the key of the rules of each locale, if that isn't the locale.
///
/// After an error nothing was written, except by a failed write, as by [`answer_numbers`]. It
/// allocates.
pub fn check_files<R: Read, W: Write, E: Write>(
    alloc: Global,
    files: &[MessageFile<'_>],
    rules: &mut R,
    writer: &mut W,
    notes: &mut E,
) -> Result<Verdict, FormsError>
    ensures answers { (input : List ℕ) × IsInput (R.remaining rules.old) input
        × IsNoted (λ document note. AreFileNotes document files.now note)
        (IsChecked files.now input (W.contents writer.old) (W.contents writer.new))
        input (E.contents notes.old) (E.contents notes.new) result }
    ensures reads { IsReadAfterResult forms_origin (R.remaining rules.old) (R.remaining rules.new) result }
    ensures writes_nothing { IfErr result (λ e. e ≢ FormsError.Write → (writer.new ≡ writer.old) × (notes.new ≡ notes.old)) }
{
    check_files_as(alloc, files, &ReportLines, rules, writer, notes)
}

/// The same with the report as a printer prints it.
pub fn check_files_as<P: ReportPrinter, R: Read, W: Write, E: Write>(
    alloc: Global,
    files: &[MessageFile<'_>],
    printer: &P,
    rules: &mut R,
    writer: &mut W,
    notes: &mut E,
) -> Result<Verdict, FormsError>
    ensures answers { (input : List ℕ) × IsInput (R.remaining rules.old) input
        × IsNoted (λ document note. AreFileNotes document files.now note)
        (IsCheckedAs (P.text_of printer.now) files.now input (W.contents writer.old) (W.contents writer.new))
        input (E.contents notes.old) (E.contents notes.new) result }
    ensures reads { IsReadAfterResult forms_origin (R.remaining rules.old) (R.remaining rules.new) result }
    ensures writes_nothing { IfErr result (λ e. e ≢ FormsError.Write → (writer.new ≡ writer.old) × (notes.new ≡ notes.old)) }
{
    match document_of(alloc, rules) {
        Ok(document) => noted_files(alloc, &document, files, printer, writer, notes),
        Err(error) => Err(error),
    }
}

// Writes the report of files of messages under the rules of a document, and the notes of the keys.
fn noted_files<P: ReportPrinter, W: Write, E: Write>(
    alloc: Global,
    document: &Value,
    files: &[MessageFile<'_>],
    printer: &P,
    writer: &mut W,
    notes: &mut E,
) -> Result<Verdict, FormsError>
    ensures answers { NotesAfter (Checks (P.text_of printer.now) (view document.now) files.now (W.contents writer.old) (W.contents writer.new))
        (AreFileNotes (view document.now) files.now) (E.contents notes.old) (E.contents notes.new) result }
    ensures writes_nothing { IfErr result (λ e. e ≢ FormsError.Write → (writer.new ≡ writer.old) × (notes.new ≡ notes.old)) }
{
    match notes_of(alloc, document, files) {
        Ok(found) => {
            let answer = check_by(alloc, document, files, printer, writer);
            write_notes(answer, found.as_str(), notes)
        }
        Err(_) => Err(FormsError::Memory),
    }
}

// Writes the report of files of messages under the rules of a document.
fn check_by<P: ReportPrinter, W: Write>(
    alloc: Global,
    document: &Value,
    files: &[MessageFile<'_>],
    printer: &P,
    writer: &mut W,
) -> Result<Verdict, FormsError>
    ensures answers { Checks (P.text_of printer.now) (view document.now) files.now (W.contents writer.old) (W.contents writer.new) result }
    ensures writes_nothing { IfErr result (λ e. e ≢ FormsError.Write → writer.new ≡ writer.old) }
{
    match JsonProvider::from_value(alloc, document) {
        Ok(provider) => report_by(alloc, &provider, document, files, printer, writer),
        Err(error) => Err(refused(error)),
    }
}

// The fault of rules that are refused.
pub(crate) fn refused(error: JsonError) -> FormsError
    ensures { result ≡ refused_rules error }
{
    match error {
        JsonError::Memory => FormsError::Memory,
        JsonError::Float => FormsError::Refused(JsonError::Float),
        JsonError::Shape => FormsError::Refused(JsonError::Shape),
        JsonError::Rule(category, fault) => FormsError::Refused(JsonError::Rule(category, fault)),
        JsonError::RangeKey => FormsError::Refused(JsonError::RangeKey),
        JsonError::RangeValue => FormsError::Refused(JsonError::RangeValue),
        JsonError::Pack(fault) => FormsError::Refused(JsonError::Pack(fault)),
    }
}

// Writes the report of files of messages under the rules of a provider.
fn report_by<P: ReportPrinter, W: Write>(
    alloc: Global,
    provider: &JsonProvider,
    document: &Value,
    files: &[MessageFile<'_>],
    printer: &P,
    writer: &mut W,
) -> Result<Verdict, FormsError>
    ensures answers { Reports (P.text_of printer.now) (view document.now) provider.now files.now (W.contents writer.old) (W.contents writer.new) result }
    ensures writes_nothing { IfErr result (λ e. e ≢ FormsError.Write → writer.new ≡ writer.old) }
{
    let source = FallbackProvider {
        provider,
        locales: document,
    };
    match run_as(alloc, &source, files, printer, writer) {
        Ok(counts) => Ok(verdict_of(counts)),
        Err(fault) => Err(FormsError::from(fault)),
    }
}

// Whether messages have no fault.
fn verdict_of(counts: Counts) -> Verdict
    ensures { result ≡ verdict_of_counts counts }
{
    if counts.faults > 0 {
        Verdict::Faults
    } else if counts.notes > 0 {
        Verdict::Noted
    } else {
        Verdict::Complete
    }
}

// Writes the answers to the lines of the numbers by the rules of a locale.
fn lines_by<N: Read, W: Write>(
    alloc: Global,
    kept: &KeptRules,
    part: Part,
    locale: &str,
    numbers: &mut N,
    writer: &mut W,
) -> Result<Verdict, FormsError>
    ensures answers { AnswersLines (IsFoundBy kept.now part locale.now) (N.remaining numbers.old) (N.remaining numbers.new)
        (W.contents writer.old) (W.contents writer.new) result }
    ensures touches_nothing { IfErr result (λ e. IsTrue (is_of_rules e) → (numbers.new ≡ numbers.old) × (writer.new ≡ writer.old)) }
{
    match language_of(alloc, kept, part, locale) {
        Ok(Ok(language)) => result_of(answer_input(alloc, &language.rules, numbers, writer)),
        Ok(Err(error)) => Err(FormsError::Language(error)),
        Err(_) => Err(FormsError::Memory),
    }
}

// What is kept for a locale of the document in a reader, if its language is known.
fn rules_of<R: Read>(
    alloc: Global,
    part: Part,
    locale: &str,
    reader: &mut R,
) -> Result<KeptRules, FormsError>
    ensures document { (input : List ℕ) × IsInput (R.remaining reader.old) input × GivesRules part locale.now input result }
    ensures reads { IsReadAfterResult forms_origin (R.remaining reader.old) (R.remaining reader.new) result }
{
    match read_input(alloc, reader) {
        Ok(input) => rules_in(alloc, part, locale, input.as_slice()),
        Err(reason) => Err(FormsError::from(reason)),
    }
}

// What is kept of the JSON value of bytes for a locale, if its language is known.
fn rules_in(alloc: Global, part: Part, locale: &str, bytes: &[u8]) -> Result<KeptRules, FormsError>
    ensures { GivesRulesIn part locale.now bytes.now result }
{
    match kept_rules(alloc, part, locale, bytes) {
        Ok(kept) => known_rules(alloc, part, locale, bytes, kept),
        Err(JsonTextError::Json) => Err(FormsError::Json),
        Err(JsonTextError::Memory) => Err(FormsError::Memory),
    }
}

// What is kept of the JSON value of bytes, unless the language is unknown by that: where the key is
// `root`, the language may have another one for other numbers, of which nothing is kept.
fn known_rules(
    alloc: Global,
    part: Part,
    locale: &str,
    bytes: &[u8],
    kept: KeptRules,
) -> Result<KeptRules, FormsError>
    ensures { IsServedBy part locale.now bytes.now kept → GivesRulesIn part locale.now bytes.now result }
{
    if !has_roots_key(&kept, locale) {
        return Ok(kept);
    }
    match known_in(alloc, part, locale, bytes) {
        Ok(()) => Ok(kept),
        Err(error) => Err(error),
    }
}

// The document in a reader.
pub(crate) fn document_of<R: Read>(alloc: Global, reader: &mut R) -> Result<Value, FormsError>
    ensures document { (input : List ℕ) × IsInput (R.remaining reader.old) input × GivesDocument input result }
    ensures reads { IsReadAfterResult forms_origin (R.remaining reader.old) (R.remaining reader.new) result }
{
    match read_input(alloc, reader) {
        Ok(input) => value_of(alloc, input.as_slice()),
        Err(error) => Err(FormsError::from(error)),
    }
}

// The JSON value of bytes.
fn value_of(alloc: Global, bytes: &[u8]) -> Result<Value, FormsError>
    ensures { GivesJsonValue bytes.now result }
{
    match json_value(alloc, bytes) {
        Ok(value) => Ok(value),
        Err(JsonTextError::Json) => Err(FormsError::Json),
        Err(JsonTextError::Memory) => Err(FormsError::Memory),
    }
}

// The lines of the forms of a locale.
fn list_of(
    alloc: Global,
    kept: &KeptRules,
    part: Part,
    locale: &str,
) -> Result<Result<Printed, LanguageError>, AllocError>
    ensures { IfOk result (AnswersFirst (IsListAnswer part locale.now) (IsFoundBy kept.now part locale.now)) }
{
    match language_of(alloc, kept, part, locale)? {
        Ok(language) => {
            let text = list_text(alloc, part, locale, &language)?;
            Ok(Ok(Printed::of(text)))
        }
        Err(error) => Ok(Err(error)),
    }
}

// The line for gettext by the rules of a locale.
fn gettext_of(
    alloc: Global,
    kept: &KeptRules,
    part: Part,
    locale: &str,
) -> Result<Result<Printed, LanguageError>, AllocError>
    ensures { IfOk result (AnswersFirst IsGettextAnswer (IsFoundBy kept.now part locale.now)) }
{
    match language_of(alloc, kept, part, locale)? {
        Ok(language) => {
            let text = gettext_line(alloc, language.value)?;
            Ok(Ok(Printed::of(text)))
        }
        Err(error) => Ok(Err(error)),
    }
}

// The lines of numbers by the rules of a locale.
fn categories_of(
    alloc: Global,
    kept: &KeptRules,
    part: Part,
    locale: &str,
    numbers: &[&str],
) -> Result<Result<Printed, LanguageError>, AllocError>
    ensures { IfOk result (AnswersFirst (IsNumbersAnswer (command_words_view numbers.now)) (IsFoundBy kept.now part locale.now)) }
{
    match language_of(alloc, kept, part, locale)? {
        Ok(language) => Ok(Ok(numbers_text(alloc, &language.rules, numbers)?)),
        Err(error) => Ok(Err(error)),
    }
}

// Writes what is printed.
fn write_answer<W: Write>(
    answer: Result<Result<Printed, LanguageError>, AllocError>,
    writer: &mut W,
) -> Result<Verdict, FormsError>
    ensures answers { WritesAnswer answer (W.contents writer.old) (W.contents writer.new) result }
    ensures writes_nothing { IfErr result (λ e. e ≢ FormsError.Write → writer.new ≡ writer.old) }
{
    match answer {
        Ok(Ok(printed)) => write_printed(&printed, writer),
        Ok(Err(fault)) => Err(FormsError::Language(fault)),
        Err(_) => Err(FormsError::Memory),
    }
}

// Writes a text, and gives the verdict by it.
fn write_printed<W: Write>(printed: &Printed, writer: &mut W) -> Result<Verdict, FormsError>
    ensures text { WritesText printed.now (W.contents writer.old) (W.contents writer.new) result }
    ensures writes_nothing { IfErr result (λ e. e ≢ FormsError.Write → writer.new ≡ writer.old) }
{
    result_of(printed.write_to(writer))
}

// The result of lines, by whether one tells why a number has no category.
fn result_of(lines: Result<bool, LinesError>) -> Result<Verdict, FormsError>
    ensures { result ≡ result_of_lines lines }
{
    match lines {
        Ok(has_fault) => Ok(verdict_by(has_fault)),
        Err(cause) => Err(FormsError::from(cause)),
    }
}

// The verdict of numbers.
fn verdict_by(has_fault: bool) -> Verdict
    ensures { result ≡ verdict_by has_fault }
{
    if has_fault {
        Verdict::Faults
    } else {
        Verdict::Complete
    }
}
