//! What is told, in words after the name of the file.

ghost use Rattle.std.specs.Prelude.{◌≡◌, ◌++◌, codes, IfOk, string_bytes};
ghost use Rattle.finding_formats.specs.LocatedFindings.{cause_words, finding_words, form_words, lent_text, located_view, located_words};
ghost use Rattle.message_report.specs.MessageFindings.{message_finding_view};

use crate::finding_object::{finding_text, text_of};
use crate::located::Located;
use crate::told::Told;
use message_report::{Cause, Finding, Form, FormFault};
use plural_documents::name_text;
use std::alloc::{AllocError, Global};

// What is told, after the name of the file.
pub(crate) fn located_words(alloc: Global, located: &Located<'_>) -> Result<String, AllocError>
    ensures { IfOk result (λ text. string_bytes text ≡ located_words (located_view located.now)) }
{
    match located.told {
        Told::Finding(finding) => finding_words(alloc, &finding, located.placeholder),
        Told::Notice(notice) => String::from_str(alloc, notice.text),
    }
}

// What is printed of a finding, given what says the number in its file.
fn finding_words(
    alloc: Global,
    finding: &Finding<'_>,
    placeholder: Option<&str>,
) -> Result<String, AllocError>
    ensures { IfOk result (λ text. string_bytes text ≡ finding_words (lent_text placeholder.entry) (message_finding_view finding.now)) }
{
    let Some(placeholder) = placeholder else {
        return finding_text(alloc, finding);
    };
    let place = finding.place.text(alloc)?;
    let shown = name_text(alloc, placeholder)?;
    cause_words(alloc, place.as_str(), shown.as_str(), finding.cause)
}

// The text of a cause, behind what is printed for its place, given what says the number.
fn cause_words(alloc: Global, place: &str, shown: &str, cause: Cause) -> Result<String, AllocError>
    ensures { IfOk result (λ text. string_bytes text ≡ place.now ++ (codes ": " ++ cause_words shown.now cause)) }
{
    match cause {
        Cause::Form(fault) => form_words(alloc, place, shown, fault),
        _ => text_of(alloc, place, cause),
    }
}

// That of the fault of a form.
fn form_words(
    alloc: Global,
    place: &str,
    shown: &str,
    fault: FormFault,
) -> Result<String, AllocError>
    ensures { IfOk result (λ text. string_bytes text ≡ place.now ++ (codes ": " ++ form_words shown.now fault)) }
{
    match fault {
        FormFault::NoNumber(category, first, second) => {
            let name = Form::Category(category).as_str();
            format!(in alloc; "{place}: no {shown}, but {first} and {second} are {name}")
        }
        _ => text_of(alloc, place, Cause::Form(fault)),
    }
}
