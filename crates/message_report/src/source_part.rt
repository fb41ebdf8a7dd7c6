//! What is found in the part of a locale that tells what the sources of its messages have.

ghost use Rattle.std.specs.Prelude.{OnOk};
ghost use Rattle.message_report.specs.FoundInMessages.{HasGrownInMessages};
ghost use Rattle.message_report.specs.Inner.FormSteps.{value_lent};
ghost use Rattle.message_report.specs.MessagePlaces.{file_locale_place_view};
ghost use Rattle.message_report.specs.MessagesReport.{IsFoundInSource, IsFoundInSourceObject, IsFoundInSourcePart};
ghost use Rattle.serde_json.specs.Find.{as_object};
ghost use Rattle.serde_json.specs.View.{view};

use crate::cause::Cause;
use crate::found::Found;
use crate::place::{LocalePlace, Place};
use crate::source_arguments::is_text_list;
use plural_documents::{MemberCheck, add_members};
use serde_json::Value;
use std::alloc::{AllocError, Global};

// Adds what is found in the part, if there is one.
pub(crate) fn add_source_part<'a>(
    alloc: Global,
    locale: LocalePlace<'a>,
    part: Option<&'a Value>,
    found: &mut Found<'a>,
) -> Result<(), AllocError>
    ensures { OnOk result (HasGrownInMessages (IsFoundInSourcePart (file_locale_place_view locale.entry) (value_lent part.entry)) found.old found.new) }
{
    match part {
        Some(part) => add_object(alloc, locale, part, found),
        None => Ok(()),
    }
}

// Adds what is found in the part, which should be an object.
fn add_object<'a>(
    alloc: Global,
    locale: LocalePlace<'a>,
    part: &'a Value,
    found: &mut Found<'a>,
) -> Result<(), AllocError>
    ensures { OnOk result (HasGrownInMessages (IsFoundInSourceObject (file_locale_place_view locale.entry) (as_object (view part.now))) found.old found.new) }
{
    match part.as_object() {
        Some(members) => add_members(alloc, &SourceCheck { locale }, members, found),
        None => found.add_fault(Place::Sources(locale), Cause::NoObject),
    }
}

// Checks what the source of a message has, in a locale.
#[derive(Clone, Copy)]
struct SourceCheck<'a> {
    locale: LocalePlace<'a>,
}

impl<'a> MemberCheck<'a, Found<'a>> for SourceCheck<'a> {
    ghost finds = { λ check. IsFoundInSource (file_locale_place_view check.locale) };

    fn add(
        &self,
        _alloc: Global,
        key: &'a str,
        value: &'a Value,
        found: &mut Found<'a>,
    ) -> Result<(), AllocError> {
        if is_text_list(value) {
            return Ok(());
        }
        found.add_fault(Place::Source(self.locale, key), Cause::NoTextList)
    }
}
