//! Why the messages of a catalog aren't checked by the rules.

ghost use Rattle.translation_files.specs.NoticeSeverities.{IsErrorCode};

use crate::code::NoticeCode;
use crate::counts::Fate;
use crate::gathered::Gathered;
use crate::po::compared::take_messages;
use crate::po::indices::{IndexFault, Indices};
use crate::po::laid::Clash;
use crate::po::measure::Measure;
use crate::po::standing::standings_of;
use gettext_plural::{FaultKind, IndexError, PluralFormsError};
use icu_plurals::provider::RawPluralCategory;
use plural_documents::printed_name;
use po_catalog::Catalog;
use std::fmt::Display;

// Tells that the rules haven't a language.
pub(crate) fn refuse_language(
    gathered: &mut Gathered,
    catalog: &Catalog,
    locale: &str,
    indices: &Indices,
) {
    let shown = printed_name(locale);
    refuse(
        gathered,
        catalog,
        NoticeCode::Language,
        format_args!(
            "the rules have no language '{shown}': name one that has the same forms by --locale"
        ),
        Measure::Indices(indices),
    );
}

// Tells two numbers of one category that have two indices.
pub(crate) fn refuse_clash(
    gathered: &mut Gathered,
    catalog: &Catalog,
    locale: &str,
    indices: &Indices,
    clash: Clash,
) {
    let category = RawPluralCategory::from(clash.category).as_str();
    let Clash { first, second, .. } = clash;
    let (one, other) = (first.number, second.number);
    let (left, right) = (first.index, second.index);
    refuse(
        gathered,
        catalog,
        NoticeCode::PluralForms,
        format_args!(
            "{one} and {other} have one form in {locale} ({category}), and by its Plural-Forms two, {left} and {right}: correct it (plural_forms gettext {locale} prints one)"
        ),
        Measure::Indices(indices),
    );
}

// Tells why a text is no `Plural-Forms`.
pub(crate) fn refuse_forms(gathered: &mut Gathered, catalog: &Catalog, error: PluralFormsError) {
    let code = NoticeCode::PluralForms;
    match error {
        PluralFormsError::Memory => gathered.fail(),
        PluralFormsError::Fault(FaultKind::NoCount | FaultKind::BadCount, _) => {
            let text =
                "it has no Plural-Forms of 1 to 100 forms, as nplurals=2; plural=n != 1; (plural_forms gettext LOCALE prints one)";
            refuse(gathered, catalog, code, text, Measure::Nothing)
        }
        PluralFormsError::Fault(kind, byte) => refuse(
            gathered,
            catalog,
            code,
            format_args!(
                "Plural-Forms: {kind} at byte {byte}: correct it (plural_forms gettext LOCALE prints one)"
            ),
            Measure::Nothing,
        ),
    }
}

// Tells a number that has no index among so many.
pub(crate) fn refuse_index(
    gathered: &mut Gathered,
    catalog: &Catalog,
    count: u64,
    fault: IndexFault,
) {
    let code = NoticeCode::PluralForms;
    let number = fault.number;
    match fault.error {
        IndexError::DividesByZero => refuse(
            gathered,
            catalog,
            code,
            format_args!(
                "Plural-Forms: {number} has no index: it divides by 0: correct it (plural_forms gettext LOCALE prints one)"
            ),
            Measure::Nothing,
        ),
        IndexError::TooLarge(index) => refuse(
            gathered,
            catalog,
            code,
            format_args!(
                "Plural-Forms: {number} has the index {index}, and nplurals is {count}: correct it (plural_forms gettext LOCALE prints one)"
            ),
            Measure::Nothing,
        ),
    }
}

// Tells why the messages aren't checked by the rules: they are checked by the file's own rule, or
// left out, if that has no indices.
pub(crate) fn refuse<T: Display + Drop>(
    gathered: &mut Gathered,
    catalog: &Catalog,
    code: NoticeCode,
    why: T,
    measure: Measure<'_>,
)
    requires { IsErrorCode code }
{
    let count = standings_of(catalog).whole;
    let (fate, left) = match measure {
        Measure::Nothing => (Fate::LeftOut, left_out(count)),
        _ => (Fate::Noted, checked_alone(count)),
    };
    let line = line_of_header(catalog);
    if count == 0 {
        return gathered.tell(line, code, why);
    }
    gathered.tell(line, code, format_args!("{why}; {count} {left}"));
    gathered.count(fate, count);
    take_messages(gathered, catalog, measure);
}

// That so many messages are checked without the rules, in the words behind their number.
fn checked_alone(count: u64) -> &'static str {
    if count == 1 {
        "message is checked by the file's own rule"
    } else {
        "messages are checked by the file's own rule"
    }
}

// That so many messages are left out, in the words behind their number.
pub(crate) fn left_out(count: u64) -> &'static str {
    if count == 1 {
        "message is left out"
    } else {
        "messages are left out"
    }
}

// The line of the header, if there is one.
pub(crate) fn line_of_header(catalog: &Catalog) -> Option<u64> {
    match catalog.header() {
        Some(header) => Some(header.line as u64),
        None => None,
    }
}
