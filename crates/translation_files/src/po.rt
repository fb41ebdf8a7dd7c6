//! gettext's catalogs, `.po`.

mod compared;
mod faults;
mod header;
mod indices;
mod lacking;
mod laid;
mod marked;
mod measure;
mod message;
mod mistakes;
mod numbers;
mod range;
mod read_text;
mod refusal;
mod seconds;
mod sides;
mod source_number;
mod standing;
mod text_format;

ghost use Rattle.std.specs.Prelude.{◌≡◌, [], All, IfOk, None};
ghost use Rattle.po_catalog.specs.Catalogs.{messages_view};
ghost use Rattle.translation_files.specs.NoticeSeverities.{IsGraded};
ghost use Rattle.translation_files.specs.ReadFiles.{IsUnread, ReadsPo};

use crate::code::NoticeCode;
use crate::counts::Fate;
use crate::file_messages::FileMessages;
use crate::gathered::Gathered;
use crate::read_file::no_messages;
use faults::{other_charset, tell_faults};
use header::{PoFile, read_messages, tell_rule};
use message_report::RulesOfLocales;
use plural_documents::printed_name;
use po_catalog::Catalog;
use refusal::{left_out, line_of_header};
use seconds::tell_seconds;
use standing::{Standings, standings_of};
use std::alloc::{AllocError, Global};

// What is told of a file without messages.
const NO_CATALOG: &str = "it is no file of messages: name a file of gettext, i18next or ARB";

/// Reads a gettext catalog: the messages with plural forms that are translated, under the locale
/// that its header names, else its name or its folder; `locale` overrides these.
///
/// What is wrong with the file or a message is a notice with its line, and everything else is read.
/// It allocates; the only error is out of memory.
pub fn read_po<S: RulesOfLocales>(
    alloc: Global,
    name: &str,
    bytes: &[u8],
    rules: &S,
    locale: Option<&str>,
) -> Result<FileMessages, AllocError>
    ensures { IfOk result (ReadsPo bytes.now) }
{
    match Catalog::read(alloc, bytes) {
        Ok(catalog) => read_entries(alloc, catalog, name, rules, locale),
        Err(error) => Err(error),
    }
}

// Reads what is in a catalog, unless it has no messages.
fn read_entries<S: RulesOfLocales>(
    alloc: Global,
    catalog: Catalog,
    name: &str,
    rules: &S,
    locale: Option<&str>,
) -> Result<FileMessages, AllocError>
    ensures graded { IfOk result (λ file. All IsGraded file.notices.items) }
    ensures nothing { messages_view catalog ≡ [] → IfOk result (IsUnread None NoticeCode.NotRead NO_CATALOG.now) }
{
    if catalog.entries.is_empty() {
        drop(catalog);
        return no_messages(alloc, NO_CATALOG);
    }
    let mut catalog = catalog;
    let mut gathered = Gathered::new(alloc);
    let sorted = catalog.faults.sort_by_key(|it| it.line);
    gathered.keep(sorted);
    gather_catalog(&mut gathered, &catalog, name, rules, locale);
    drop(catalog);
    gathered.finish()
}

// Gathers what is in a catalog, whose faults are in the order of their lines.
fn gather_catalog<S: RulesOfLocales>(
    gathered: &mut Gathered,
    catalog: &Catalog,
    name: &str,
    rules: &S,
    locale: Option<&str>,
) {
    if let Some(charset) = other_charset(catalog) {
        return refuse_charset(gathered, catalog, charset);
    }
    read_catalog(gathered, catalog, name, rules, locale);
}

// Tells that the file is to be converted.
fn refuse_charset(gathered: &mut Gathered, catalog: &Catalog, charset: &str) {
    let count = standings_of(catalog).count();
    let shown = printed_name(charset);
    let left = left_out(count);
    gathered.leave_out(
        count,
        line_of_header(catalog),
        NoticeCode::Charset,
        format_args!(
            "its charset is {shown}, and UTF-8 is read: convert the file by msgconv --to-code=UTF-8; {count} {left}"
        ),
    );
}

// Reads the messages of a catalog.
fn read_catalog<S: RulesOfLocales>(
    gathered: &mut Gathered,
    catalog: &Catalog,
    name: &str,
    rules: &S,
    locale: Option<&str>,
) {
    let standings = standings_of(catalog);
    tell_faults(gathered, catalog);
    if standings.count() == 0 {
        if catalog.faults.is_empty() {
            gathered.note_no_messages();
        }
        return;
    }
    tell_left_out(gathered, &standings);
    if standings.whole == 0 {
        tell_rule(gathered, catalog);
        return tell_seconds(gathered, catalog, false);
    }
    let file = PoFile {
        catalog,
        name,
        rules,
        locale,
    };
    read_messages(gathered, &file);
}

// Tells how many messages need no check.
fn tell_left_out(gathered: &mut Gathered, standings: &Standings) {
    let untranslated = standings.untranslated;
    let fuzzy = standings.fuzzy;
    let obsolete = standings.obsolete;
    if untranslated == 0 && fuzzy == 0 && obsolete == 0 {
        return;
    }
    gathered.note(
        None,
        NoticeCode::LeftOut,
        format_args!(
            "messages without a text {untranslated}, fuzzy {fuzzy}, obsolete {obsolete}: left out"
        ),
    );
    gathered.count(Fate::LeftOut, untranslated);
    gathered.count(Fate::LeftOut, fuzzy);
    gathered.count(Fate::LeftOut, obsolete);
}
