//! The messages of a catalog, read by its header.

use crate::code::NoticeCode;
use crate::gathered::Gathered;
use crate::locale_name::push_locale;
use crate::po::compared::take_messages;
use crate::po::indices::Indices;
use crate::po::laid::{Laid, lay};
use crate::po::measure::{Forms, Measure};
use crate::po::refusal::{
    line_of_header, refuse, refuse_clash, refuse_forms, refuse_index, refuse_language,
};
use gettext_plural::{FaultKind, PluralForms, PluralFormsError};
use icu_plurals::{PluralRuleType, PluralRules};
use message_report::RulesOfLocales;
use po_catalog::Catalog;
use std::alloc::AllocError;
use std::fmt::Write;
use std::str;

// How many numbers a notice names.
const MOST_NAMED: usize = 3;

// A catalog of this name, the rules of locales, and the locale that is asked for.
#[derive(Drop)]
pub(crate) struct PoFile<'a, S> {
    pub(crate) catalog: &'a Catalog,
    pub(crate) name: &'a str,
    pub(crate) rules: &'a S,
    pub(crate) locale: Option<&'a str>,
}

// Reads the messages by the header.
pub(crate) fn read_messages<S: RulesOfLocales>(gathered: &mut Gathered, file: &PoFile<'_, S>) {
    if file.catalog.header().is_none() {
        let text = "it has no header, with Language and Plural-Forms: write one (msginit makes it)";
        return refuse(
            gathered,
            file.catalog,
            NoticeCode::Header,
            text,
            Measure::Nothing,
        );
    }
    let text = file.catalog.header_field(b"Plural-Forms").unwrap_or(b"");
    match PluralForms::parse(gathered.alloc, text) {
        Ok(forms) => read_by_forms(gathered, file, &forms),
        Err(error) => read_by_header(gathered, file, error),
    }
}

// Reads the messages of a file whose field `Plural-Forms` has no rule, for this reason: gettext seeks
// `nplurals=` and `plural=` in the whole header.
fn read_by_header<S: RulesOfLocales>(
    gathered: &mut Gathered,
    file: &PoFile<'_, S>,
    error: PluralFormsError,
) {
    match PluralForms::parse(gathered.alloc, header_text(file.catalog)) {
        Ok(forms) => read_by_forms(gathered, file, &forms),
        Err(PluralFormsError::Memory) => gathered.fail(),
        Err(_) => refuse_forms(gathered, file.catalog, error),
    }
}

// Tells what is wrong with the rule of a file that has no message to check, if there is `nplurals=`.
pub(crate) fn tell_rule(gathered: &mut Gathered, catalog: &Catalog) {
    match PluralForms::parse(gathered.alloc, header_text(catalog)) {
        Ok(_) | Err(PluralFormsError::Fault(FaultKind::NoCount, _)) => {}
        Err(error) => refuse_forms(gathered, catalog, error),
    }
}

// The text of the header, empty if there is none.
fn header_text(catalog: &Catalog) -> &[u8] {
    match catalog.header() {
        Some(header) => match header.forms.first() {
            Some(text) => text.bytes.as_slice(),
            None => b"",
        },
        None => b"",
    }
}

// Reads the messages of a file that has a rule.
fn read_by_forms<S: RulesOfLocales>(
    gathered: &mut Gathered,
    file: &PoFile<'_, S>,
    forms: &PluralForms,
) {
    let mut indices = Indices::new(gathered.alloc, forms.count());
    match indices.fill(gathered.alloc, forms) {
        Ok(None) => read_indexed(gathered, file, &indices),
        Ok(Some(fault)) => refuse_index(gathered, file.catalog, indices.count, fault),
        Err(_) => gathered.fail(),
    }
    drop(indices);
}

// Reads the messages whose forms have these indices.
fn read_indexed<S: RulesOfLocales>(
    gathered: &mut Gathered,
    file: &PoFile<'_, S>,
    indices: &Indices,
) {
    let named = file.locale.or(language_of(file.catalog));
    let mut locale = String::new(gathered.alloc);
    match push_locale(&mut locale, named, file.name, file.rules) {
        Ok(None) => read_said(gathered, file, locale.as_str(), indices),
        Err(_) => gathered.fail(),
        Ok(Some(fault)) => {
            let code = NoticeCode::Language;
            refuse(
                gathered,
                file.catalog,
                code,
                fault,
                Measure::Indices(indices),
            )
        }
    }
}

// Reads the messages of a file in the locale that is asked for, or that it says.
fn read_said<S: RulesOfLocales>(
    gathered: &mut Gathered,
    file: &PoFile<'_, S>,
    locale: &str,
    indices: &Indices,
) {
    if file.locale.is_none() && locale == "pt" && is_portugals(indices) {
        tell_portugals(gathered, file.catalog);
        return read_under(gathered, file, "pt-PT", indices);
    }
    read_under(gathered, file, locale, indices);
}

// The language that a header names.
fn language_of(catalog: &Catalog) -> Option<&str> {
    str::from_utf8(catalog.header_field(b"Language")?).ok()
}

// Whether the forms are those of Portugal, where 0 has the form of 2; in Brazil it has that of 1.
fn is_portugals(indices: &Indices) -> bool {
    let one = indices.index_of(1);
    if indices.count != 2 {
        return false;
    }
    for it in indices.tried.iter() {
        if (Some(it.index) == one) != (it.number == 1) {
            return false;
        }
    }
    true
}

// Tells that a catalog is taken as one of Portugal.
fn tell_portugals(gathered: &mut Gathered, catalog: &Catalog) {
    let text =
        "its Plural-Forms is Portugal's, so it is taken as pt-PT: write that as its Language, or name another by --locale";
    gathered.note(line_of_header(catalog), NoticeCode::TakenAs, text);
}

// Reads the messages under the rules of a locale.
fn read_under<S: RulesOfLocales>(
    gathered: &mut Gathered,
    file: &PoFile<'_, S>,
    locale: &str,
    indices: &Indices,
) {
    match file.rules.rules_of(PluralRuleType::Cardinal, locale) {
        Some(rules) => {
            let rules = PluralRules::from_data(rules);
            let read = read_by(gathered, file, locale, indices, &rules);
            drop(rules);
            read
        }
        None => refuse_language(gathered, file.catalog, locale, indices),
    }
}

// Reads the messages under these rules.
fn read_by<S>(
    gathered: &mut Gathered,
    file: &PoFile<'_, S>,
    locale: &str,
    indices: &Indices,
    rules: &PluralRules<'_>,
) {
    let mut laid = Laid::new(gathered.alloc);
    match lay(&mut laid, gathered.alloc, indices, rules) {
        Ok(None) => read_laid(gathered, file, locale, indices, &laid),
        Ok(Some(clash)) => refuse_clash(gathered, file.catalog, locale, indices, clash),
        Err(_) => gathered.fail(),
    }
    drop(laid);
}

// Reads the messages, whose forms are laid beside the categories.
fn read_laid<S>(
    gathered: &mut Gathered,
    file: &PoFile<'_, S>,
    locale: &str,
    indices: &Indices,
    laid: &Laid,
) {
    tell_differing(gathered, file.catalog, locale, laid.differing.as_slice());
    gathered.keep_locale(locale);
    let forms = Forms { indices, laid };
    take_messages(gathered, file.catalog, Measure::Rules(forms));
}

// Tells for which numbers a catalog and the rules differ.
fn tell_differing(gathered: &mut Gathered, catalog: &Catalog, locale: &str, differing: &[u64]) {
    if differing.is_empty() {
        return;
    }
    let mut numbers = String::new(gathered.alloc);
    let pushed = push_numbers(&mut numbers, differing);
    gathered.keep(pushed);
    gathered.note(
        line_of_header(catalog),
        NoticeCode::RulesDiffer,
        format_args!(
            "its Plural-Forms and CLDR's rules of {locale} differ for {numbers}, where the file's are taken: compare it with what plural_forms gettext {locale} prints"
        ),
    );
}

// Appends the first of some numbers, and whether there are more.
fn push_numbers(text: &mut String, numbers: &[u64]) -> Result<(), AllocError> {
    for (index, number) in numbers.iter().enumerate() {
        if index == MOST_NAMED {
            return text.push_str(" and more");
        }
        let comma = if index == 0 { "" } else { ", " };
        write!(text, "{comma}{number}")?;
    }
    Ok(())
}
