//! JSON files of messages: ARB, i18next, others whose texts are ICU patterns, documents of messages,
//! and what a tool tells of a file that isn't read here.

mod android_arguments;
mod android_message;
mod android_number;
mod apostrophes;
mod arb_locale;
mod arb_text;
mod argument_head;
mod count_text;
mod document_places;
mod document_shape;
mod empty_form;
mod fault;
mod form_text;
mod found_messages;
mod icu_message;
mod icu_scan;
mod key_suffix;
mod key_tree;
mod line_count;
mod members;
mod message_keys;
mod pattern_message;
mod spoken_categories;
mod suffix_groups;
mod suffix_message;
mod text_bytes;
mod texts;
mod told;

ghost use Rattle.std.specs.Prelude.{◌≡◌, [], All, false, IfOk};
ghost use Rattle.serde_json.specs.Errors.{IsMemory};
ghost use Rattle.serde_json.specs.View.{view};
ghost use Rattle.translation_files.specs.NoticeSeverities.{IsGraded};
ghost use Rattle.translation_files.specs.ReadFiles.{IsBroken, IsDocumentOf, IsReadOf, ReadsJsonFile, tells_notices};

use crate::code::NoticeCode;
use crate::counts::{Fate, FileCounts};
use crate::file_messages::FileMessages;
use crate::gathered::Gathered;
use crate::locale_name::{LocaleFault, push_locale, text_of};
use crate::notice::FileNotice;
use crate::places::Places;
use crate::po::read_po;
use crate::read_file::without_mark;
use arb_locale::locale_of_name;
use document_places::add_places;
pub use document_shape::is_document;
use fault::broken;
use found_messages::{FoundMessages, add_found, tell_repeated};
use json::Scratch;
use key_tree::KeyTree;
use message_report::RulesOfLocales;
use serde_json::{Error, Value};
use spoken_categories::spoken_by;
use std::alloc::{AllocError, Global};
use texts::JsonTexts;
use told::{ToldCatalog, ToldFile, add_notices, add_told, told_catalog, told_file};

/// Reads a JSON file of messages.
///
/// A document of messages ([`is_document`]) is returned as it is, with the lines of its messages. Of
/// what `tools/translation-input` prints, the file's own name and lines are told. Else the texts are
/// read: keys are nested by dots, and one that begins with `@` is none; texts whose keys have
/// i18next's suffixes, as `files_one` and `files_ordinal_few`, are a message, in which `{{count}}`
/// is the number; an ICU pattern of one plural argument is one, in which `#` and `{n}` are, and
/// another pattern with plurals is checked as it is. The locale is that of `@@locale`, else of the
/// file's name, as `ru.json` or `app_ru.arb`, or of its folders; `locale` overrides these.
///
/// What is wrong with the file or a message is a notice with its line, and everything else is read.
/// It allocates; the only error is out of memory.
pub fn read_json<S: RulesOfLocales>(
    alloc: Global,
    name: &str,
    bytes: &[u8],
    rules: &S,
    locale: Option<&str>,
) -> Result<FileMessages, AllocError>
    ensures { IfOk result (ReadsJsonFile bytes.now) }
{
    let bytes = without_mark(bytes);
    match Value::from_slice(alloc, bytes) {
        Ok(value) => read_value(alloc, name, bytes, value, rules, locale),
        Err(fault) => no_json(alloc, bytes, &fault),
    }
}

// Reads a file whose text is a value.
fn read_value<S: RulesOfLocales>(
    alloc: Global,
    name: &str,
    bytes: &[u8],
    value: Value,
    rules: &S,
    locale: Option<&str>,
) -> Result<FileMessages, AllocError>
    ensures { IfOk result (IsReadOf (view value)) }
{
    if is_document(&value) {
        return placed_document(alloc, text_of(bytes), value);
    }
    let file = read_texts(alloc, name, bytes, &value, rules, locale);
    drop(value);
    file
}

// Reads a file of texts, or what a tool tells of a file.
fn read_texts<S: RulesOfLocales>(
    alloc: Global,
    name: &str,
    bytes: &[u8],
    value: &Value,
    rules: &S,
    locale: Option<&str>,
) -> Result<FileMessages, AllocError>
    ensures { IfOk result (λ file. tells_notices (view value.now) ≡ false → All IsGraded file.notices.items) }
{
    match told_catalog(value) {
        Some(told) => read_told_catalog(alloc, told, rules, locale),
        None => read_gathered(alloc, name, bytes, value, rules, locale),
    }
}

// Reads the catalog that a tool tells.
fn read_told_catalog<S: RulesOfLocales>(
    alloc: Global,
    told: ToldCatalog<'_>,
    rules: &S,
    locale: Option<&str>,
) -> Result<FileMessages, AllocError>
    ensures { IfOk result (λ file. All IsGraded file.notices.items) }
{
    let mut file = read_po(alloc, told.name, told.text.as_bytes(), rules, locale)?;
    match String::from_str(alloc, told.name) {
        Ok(name) => {
            file.name = Some(name);
            Ok(file)
        }
        Err(error) => {
            drop(file);
            Err(error)
        }
    }
}

// Reads a file of texts, or the messages that a tool tells.
fn read_gathered<S: RulesOfLocales>(
    alloc: Global,
    name: &str,
    bytes: &[u8],
    value: &Value,
    rules: &S,
    locale: Option<&str>,
) -> Result<FileMessages, AllocError>
    ensures { IfOk result (λ file. tells_notices (view value.now) ≡ false → All IsGraded file.notices.items) }
{
    let mut gathered = Gathered::new(alloc);
    let told = gather(&mut gathered, name, bytes, value, rules, locale);
    gathered.finish_behind(told)
}

// What is told of bytes that aren't JSON.
fn no_json(alloc: Global, bytes: &[u8], fault: &Error) -> Result<FileMessages, AllocError>
    ensures { IfOk result (λ file. (¬ IsMemory fault.now) × IsBroken bytes.now file) }
{
    if fault.is_memory() {
        Err(AllocError)
    } else {
        broken(alloc, bytes, fault)
    }
}

// Keeps the locale that is named, else that of a file's name. If it isn't known, tells so, where it
// can be named, and how many messages are left out, and returns false.
fn keep_locale<S: RulesOfLocales>(
    gathered: &mut Gathered,
    rules: &S,
    named: Option<&str>,
    name: &str,
    place: &str,
    count: u64,
) -> bool {
    match push_locale(&mut gathered.locale, named, name, rules) {
        Ok(None) => return true,
        Ok(Some(LocaleFault::Unnamed)) => gathered.leave_out(
            count,
            None,
            NoticeCode::Language,
            format_args!(
                "its language isn't known: name it {place}, or by --locale; messages left out: {count}"
            ),
        ),
        Ok(Some(fault)) => gathered.leave_out(
            count,
            None,
            NoticeCode::Language,
            format_args!("{fault}; messages left out: {count}"),
        ),
        Err(_) => gathered.fail(),
    }
    false
}

// A document with the places of its messages.
fn placed_document(alloc: Global, text: &str, document: Value) -> Result<FileMessages, AllocError>
    ensures { IfOk result (IsDocumentOf (view document)) }
{
    let mut places = Places::new(alloc);
    let mut counts = FileCounts::none();
    match place(alloc, text, &mut places, &mut counts) {
        Ok(()) => Ok(FileMessages {
            name: None,
            document,
            places,
            notices: Vec::new(alloc),
            counts,
        }),
        Err(error) => {
            drop(document);
            drop(places);
            Err(error)
        }
    }
}

// Adds the places of a document's messages, and counts these.
fn place(
    alloc: Global,
    text: &str,
    places: &mut Places,
    counts: &mut FileCounts,
) -> Result<(), AllocError> {
    let count = add_places(alloc, text, places)?;
    counts.add(Fate::Checked, count)
}

// Gathers what is in a file that is JSON, and no document. The notices that it tells itself.
fn gather<S: RulesOfLocales>(
    gathered: &mut Gathered,
    name: &str,
    bytes: &[u8],
    value: &Value,
    rules: &S,
    locale: Option<&str>,
) -> Vec<FileNotice>
    ensures { tells_notices (view value.now) ≡ false → result.items ≡ [] }
{
    match told_file(value) {
        Some(told) => gather_told(gathered, told, rules, locale),
        None => {
            gather_texts(gathered, name, text_of(bytes), rules, locale);
            Vec::new(gathered.alloc)
        }
    }
}

// Gathers what a tool tells of a file. The notices that it tells.
fn gather_told<S: RulesOfLocales>(
    gathered: &mut Gathered,
    told: ToldFile<'_>,
    rules: &S,
    locale: Option<&str>,
) -> Vec<FileNotice>
    ensures { told.entry.notices.now ≡ [] → result.items ≡ [] }
{
    gathered.keep_name(told.name);
    let notices = add_notices(gathered, told.notices);
    if told.messages.is_empty() && told.notices.is_empty() {
        gathered.note_no_messages();
        return notices;
    }
    let named = locale.or(told.locale);
    let count = told.messages.len() as u64;
    let place = "by a folder as values-ru, by tools:locale";
    if count > 0 && keep_locale(gathered, rules, named, told.name, place, count) {
        add_told(gathered, told.messages);
    }
    notices
}

// Gathers the texts of a file.
fn gather_texts<S: RulesOfLocales>(
    gathered: &mut Gathered,
    name: &str,
    text: &str,
    rules: &S,
    locale: Option<&str>,
) {
    let mut scratch = Scratch::new(gathered.alloc);
    let mut texts = JsonTexts::new(gathered.alloc);
    let filled = texts.fill(text, &mut scratch);
    gathered.keep(filled);
    gather_found(gathered, name, &texts, rules, locale);
    drop(texts);
}

// Gathers the texts that were found in a file.
fn gather_found<S: RulesOfLocales>(
    gathered: &mut Gathered,
    name: &str,
    texts: &JsonTexts<'_>,
    rules: &S,
    locale: Option<&str>,
) {
    tell_repeated(gathered, &texts.keys, &texts.repeated);
    let mut found = FoundMessages::new(gathered.alloc, name.ends_with(".arb"));
    let filled = found.fill(texts);
    gathered.keep(filled);
    let named = locale.or(texts.locale).or(locale_of_name(name, rules));
    add_messages(gathered, name, &texts.keys, &found, rules, named);
    drop(found);
}

// Adds the messages that were found in a file.
fn add_messages<'a, S: RulesOfLocales>(
    gathered: &mut Gathered,
    name: &str,
    keys: &KeyTree<'a>,
    found: &FoundMessages<'a>,
    rules: &S,
    named: Option<&str>,
) {
    let count = found.count();
    if count == 0 {
        return gathered.note_no_messages();
    }
    if keep_locale(gathered, rules, named, name, "in the file", count) {
        let spoken = spoken_by(rules, gathered.locale.as_str());
        add_found(gathered, keys, found, spoken);
    }
}
