//! What is found in a pattern.

ghost use Rattle.std.specs.Prelude.{◌≡◌, OnOk};
ghost use Rattle.message_pattern.specs.PatternParts.{parts_view};
ghost use Rattle.message_report.specs.FoundInMessages.{message_fault_at, messages_together, HasGrownInMessages};
ghost use Rattle.message_report.specs.Inner.ArgumentViews.{languages_view};
ghost use Rattle.message_report.specs.MessagePlaces.{at_pattern, file_locale_place_view, pattern_place_view};
ghost use Rattle.message_report.specs.MessagesReport.{IsFoundInArguments, IsFoundInPattern, IsFoundInText, IsFoundInTextIf};
ghost use Rattle.message_report.specs.declared.cause.Cause.TheVariants.{NoPattern};
ghost use Rattle.serde_json.specs.Find.{as_str};
ghost use Rattle.serde_json.specs.View.{view};

use crate::cause::Cause;
use crate::found::Found;
use crate::languages::Languages;
use crate::pattern_faults::tell_pattern;
use crate::place::{LocalePlace, PatternPlace, Place};
use message_pattern::{FaultKind, Part, PatternError, StyledPattern};
use plural_documents::MemberCheck;
use serde_json::Value;
use std::alloc::{AllocError, Global};

// Checks a pattern of a locale.
#[derive(Clone, Copy)]
pub(crate) struct PatternCheck<'l, 'a> {
    pub(crate) languages: &'l Languages,
    pub(crate) locale: LocalePlace<'a>,
}

impl<'l, 'a> MemberCheck<'a, Found<'a>> for PatternCheck<'l, 'a> {
    ghost finds = { λ check. IsFoundInPattern (languages_view check.languages.now) (file_locale_place_view check.locale) };

    fn add(
        &self,
        alloc: Global,
        key: &'a str,
        value: &'a Value,
        found: &mut Found<'a>,
    ) -> Result<(), AllocError> {
        let place = PatternPlace {
            locale: self.locale,
            key,
        };
        found.count_message()?;
        add_value(alloc, self.languages, place, value, found)
    }
}

// Adds what is found in a value, which should be a text.
fn add_value<'a>(
    alloc: Global,
    languages: &Languages,
    place: PatternPlace<'a>,
    value: &'a Value,
    found: &mut Found<'a>,
) -> Result<(), AllocError>
    ensures { OnOk result (HasGrownInMessages
        (IsFoundInTextIf (languages_view languages.now) (pattern_place_view place.entry) (as_str (view value.now))) found.old found.new) }
{
    match value.as_str() {
        Some(text) => add_text(alloc, languages, place, text, found),
        None => found.add_fault(Place::Pattern(place), Cause::NoText),
    }
}

// Adds what is found in a text.
fn add_text<'a>(
    alloc: Global,
    languages: &Languages,
    place: PatternPlace<'a>,
    text: &'a str,
    found: &mut Found<'a>,
) -> Result<(), AllocError>
    ensures { OnOk result (HasGrownInMessages (IsFoundInText (languages_view languages.now) (pattern_place_view place.entry) text.now) found.old found.new) }
{
    match StyledPattern::parse(alloc, text.as_bytes()) {
        Ok(styled) => {
            let pattern = styled.into_pattern();
            add_arguments(alloc, languages, place, pattern.parts(), found)
        }
        Err(PatternError::Fault(kind, byte)) => add_no_pattern(place, kind, byte, found),
        Err(PatternError::Memory) => Err(AllocError),
    }
}

// Adds that a text is no pattern.
fn add_no_pattern<'a>(
    place: PatternPlace<'a>,
    kind: FaultKind,
    byte: usize,
    found: &mut Found<'a>,
) -> Result<(), AllocError>
    ensures { OnOk result (found.new
        ≡ messages_together found.old (message_fault_at (at_pattern (pattern_place_view place.entry)) (NoPattern kind byte))) }
{
    found.add_fault(Place::Pattern(place), Cause::NoPattern(kind, byte))
}

// Adds what is found in the arguments of a pattern with these parts.
fn add_arguments<'a>(
    alloc: Global,
    languages: &Languages,
    place: PatternPlace<'a>,
    parts: &[Part<'a>],
    found: &mut Found<'a>,
) -> Result<(), AllocError>
    ensures { OnOk result (HasGrownInMessages
        (IsFoundInArguments (languages_view languages.now) (pattern_place_view place.entry) (parts_view parts.now)) found.old found.new) }
{
    let count = tell_pattern(alloc, languages, place, parts, found)?;
    found.add_rest(Place::Pattern(place), count)
}
