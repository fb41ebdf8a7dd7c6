//! What is found in the rules of a part.

ghost use Rattle.std.specs.Prelude.{◌≡◌, Some, OnOk, option_map};
ghost use Rattle.std.specs.Option.{option_copied};
ghost use Rattle.icu_plurals.specs.RulesJson.{text_under};
ghost use Rattle.plural_checker.specs.LanguageTexts.{six_texts};
ghost use Rattle.plural_checker.specs.TextChecks.{AreFindingsOf};
ghost use Rattle.document_report.specs.DocumentPlaces.{locale_place_view};
ghost use Rattle.document_report.specs.DocumentReport.{all_texts_in, faults_of, found_of_other, found_told};
ghost use Rattle.document_report.specs.DocumentReport.{found_under, found_under_all, lacks_other, text_order, IsFoundInLanguage, IsFoundInRules};
ghost use Rattle.document_report.specs.FoundInDocuments.{findings_alone, together, HasGrownInDocument, IsFoundInDocumentMembers};
ghost use Rattle.document_report.specs.Inner.CheckCalls.{told_after};
ghost use Rattle.serde_json.specs.View.{members_view, view};

use crate::cause::Cause;
use crate::fault_copy::fault_copy;
use crate::finding_place::{FindingPlace, LocalePlace};
use crate::found::Found;
use crate::keys::{add_categories, add_key};
use crate::known_texts::{FoundInTexts, KnownTexts};
use document_members::{TextMember, text_member};
use icu_plurals::PluralCategory;
use plural_checker::{Fault, LanguageTexts, Report, check_texts};
use plural_documents::{MOST_TOLD, sum};
use plural_fallback::Part;
use serde_json::{Map, Value};
use std::alloc::{AllocError, Global};

// The categories in the order of the rules.
const TEXT_ORDER: [PluralCategory; 6] = [
    PluralCategory::Zero,
    PluralCategory::One,
    PluralCategory::Two,
    PluralCategory::Few,
    PluralCategory::Many,
    PluralCategory::Other,
];

// That no fault is found in texts, and how many numbers their samples have.
#[derive(Clone, Copy)]
struct NoFault {
    numbers: u64,
}

impl FoundInTexts for NoFault {
    ghost use Rattle.std.specs.Prelude.{[]};
    ghost use Rattle.plural_checker.specs.TextChecks.{AreFindingsOf};

    ghost IsFoundIn = { λ it texts. AreFindingsOf texts (record { faults = []; numbers = it.numbers }) };
}

// Adds what is found in the rules of each locale of a part. Texts that are the same as others before
// them, in which no fault was found, aren't checked again.
pub(crate) fn add_languages<'a>(
    alloc: Global,
    part: Part,
    members: &'a Map<String, Value>,
    found: &mut Found<'a>,
) -> Result<(), AllocError>
    ensures { OnOk result (HasGrownInDocument (IsFoundInDocumentMembers (IsFoundInRules part) (members_view members.now.entries)) found.old found.new) }
{
    let mut known = KnownTexts::new(alloc);
    for (key, value) in members.iter() {
        let place = LocalePlace {
            part,
            locale: key.as_str(),
        };
        add_language(alloc, place, value, &mut known, found)?;
    }
    Ok(())
}

// Adds what is found in the rules of a locale.
fn add_language<'a>(
    alloc: Global,
    place: LocalePlace<'a>,
    value: &'a Value,
    known: &mut KnownTexts<'a, NoFault>,
    found: &mut Found<'a>,
) -> Result<(), AllocError>
    ensures { OnOk result (HasGrownInDocument (IsFoundInLanguage (locale_place_view place.entry) (view value.now)) found.old found.new) }
{
    let texts = texts_of(value);
    match known.found_in(&texts) {
        Some(checked) => add_checked(alloc, place, value, &[], checked.numbers, found),
        None => add_unknown(alloc, place, value, texts, known, found),
    }
}

// Adds what is found in the rules of a locale whose texts aren't known.
fn add_unknown<'a>(
    alloc: Global,
    place: LocalePlace<'a>,
    value: &'a Value,
    texts: LanguageTexts<'a>,
    known: &mut KnownTexts<'a, NoFault>,
    found: &mut Found<'a>,
) -> Result<(), AllocError>
    requires { six_texts texts ≡ all_texts_in (view value.now) }
    ensures { OnOk result (HasGrownInDocument (IsFoundInLanguage (locale_place_view place.entry) (view value.now)) found.old found.new) }
{
    match check_texts(alloc, &texts) {
        Ok(checked) => {
            let added = add_report(alloc, place, value, texts, &checked, known, found);
            drop(checked);
            added
        }
        Err(error) => Err(error),
    }
}

// Adds what is found in the rules of a locale, given what a check of their texts found, and keeps
// texts in which no fault was found.
fn add_report<'a>(
    alloc: Global,
    place: LocalePlace<'a>,
    value: &'a Value,
    texts: LanguageTexts<'a>,
    checked: &Report,
    known: &mut KnownTexts<'a, NoFault>,
    found: &mut Found<'a>,
) -> Result<(), AllocError>
    requires texts { six_texts texts ≡ all_texts_in (view value.now) }
    requires checked { AreFindingsOf (all_texts_in (view value.now)) checked.now }
    ensures { OnOk result (HasGrownInDocument (IsFoundInLanguage (locale_place_view place.entry) (view value.now)) found.old found.new) }
{
    let faults = checked.faults.as_slice();
    if faults.is_empty() {
        let numbers = checked.numbers;
        known.keep(texts, NoFault { numbers })?;
    }
    add_checked(alloc, place, value, faults, checked.numbers, found)
}

// Adds what is found in the rules of a locale, given the faults of their texts and how many numbers
// the samples have.
fn add_checked<'a>(
    alloc: Global,
    place: LocalePlace<'a>,
    value: &'a Value,
    faults: &[Fault],
    numbers: u64,
    found: &mut Found<'a>,
) -> Result<(), AllocError>
    requires { AreFindingsOf (all_texts_in (view value.now)) (record { faults = faults.now; numbers = numbers }) }
    ensures { OnOk result (HasGrownInDocument (IsFoundInLanguage (locale_place_view place.entry) (view value.now)) found.old found.new) }
{
    add_key(place, found)?;
    add_other(place, value, found)?;
    add_texts(alloc, place, value, faults, found)?;
    found.add_cases(numbers)?;
    add_categories(alloc, place, value.as_object(), found)
}

/// Returns the texts of a language's rules: the value of a locale in the rules of a document. It
/// allocates nothing.
pub fn texts_of(value: &Value) -> LanguageTexts<'_>
    ensures { six_texts result ≡ all_texts_in (view value.now) }
{
    LanguageTexts {
        zero: text_under(value, PluralCategory::Zero),
        one: text_under(value, PluralCategory::One),
        two: text_under(value, PluralCategory::Two),
        few: text_under(value, PluralCategory::Few),
        many: text_under(value, PluralCategory::Many),
        other: text_under(value, PluralCategory::Other),
    }
}

// The text under the name of a category.
fn text_under(value: &Value, category: PluralCategory) -> Option<&str>
    ensures { option_copied result ≡ text_under category (view value.now) }
{
    value.get(category.as_str())?.as_str()
}

// Adds a fault if a language has no value of other.
fn add_other<'a>(
    place: LocalePlace<'a>,
    value: &Value,
    found: &mut Found<'a>,
) -> Result<(), AllocError>
    ensures { OnOk result (found.new ≡ together found.old (found_of_other (locale_place_view place.entry) (view value.now))) }
{
    if !lacks_other(value) {
        return Ok(());
    }
    found.add_fault(FindingPlace::Locale(place), Cause::NoOther)
}

// Whether the value of other is absent or null.
fn lacks_other(value: &Value) -> bool
    ensures { result ≡ lacks_other (view value.now) }
{
    match value.get(PluralCategory::Other.as_str()) {
        Some(text) => text.is_null(),
        None => true,
    }
}

// Adds, category by category, a fault if the value is no text, and the faults of the text; counts
// the texts.
fn add_texts<'a>(
    alloc: Global,
    place: LocalePlace<'a>,
    value: &Value,
    faults: &[Fault],
    found: &mut Found<'a>,
) -> Result<(), AllocError>
    ensures { OnOk result (found.new
        ≡ together found.old (found_under_all (locale_place_view place.entry) (view value.now) faults.now text_order)) }
{
    for category in &TEXT_ORDER {
        let under = value.get(category.as_str());
        add_text(place, *category, under, found)?;
        add_faults(alloc, place, *category, faults, found)?;
    }
    Ok(())
}

// Checks the value of one category, which may be absent.
fn add_text<'a>(
    place: LocalePlace<'a>,
    category: PluralCategory,
    value: Option<&Value>,
    found: &mut Found<'a>,
) -> Result<(), AllocError>
    ensures { OnOk result (found.new
        ≡ together found.old (found_under (locale_place_view place.entry) category (option_map (λ v. view v.now) value.entry))) }
{
    match value {
        Some(value) => add_value(place, category, value, found),
        None => Ok(()),
    }
}

// Checks the value of one category.
fn add_value<'a>(
    place: LocalePlace<'a>,
    category: PluralCategory,
    value: &Value,
    found: &mut Found<'a>,
) -> Result<(), AllocError>
    ensures { OnOk result (found.new
        ≡ together found.old (found_under (locale_place_view place.entry) category (Some (view value.now)))) }
{
    match text_member(value) {
        TextMember::Null => Ok(()),
        TextMember::Text => found.add_checked(1),
        TextMember::NoText => found.add_fault(FindingPlace::Text(place, category), Cause::NoText),
    }
}

// Adds the faults of one category's text.
fn add_faults<'a>(
    alloc: Global,
    place: LocalePlace<'a>,
    category: PluralCategory,
    faults: &[Fault],
    found: &mut Found<'a>,
) -> Result<(), AllocError>
    ensures { OnOk result (found.new
        ≡ together found.old (found_told (locale_place_view place.entry) category (faults_of category faults.now))) }
{
    let mut count = 0;
    for fault in faults {
        if fault.category == category {
            tell(alloc, place, fault, count, found)?;
            count = sum(count, 1)?;
        }
    }
    found.add_rest(FindingPlace::Text(place, category), count)?;
    found.add_faults(count)
}

// Adds the finding of a fault if at most nine of the same text come before it.
fn tell<'a>(
    alloc: Global,
    place: LocalePlace<'a>,
    fault: &Fault,
    before: u64,
    found: &mut Found<'a>,
) -> Result<(), AllocError>
    ensures { OnOk result (found.new
        ≡ together found.old (findings_alone (told_after (locale_place_view place.entry) before fault.now))) }
{
    if before >= MOST_TOLD {
        return Ok(());
    }
    match fault_copy(alloc, &fault.kind) {
        Ok(kind) => {
            found.add_finding(FindingPlace::Text(place, fault.category), Cause::Text(kind))
        }
        Err(error) => Err(error),
    }
}
