//! The notes of the rules of locales.

ghost use Rattle.std.specs.Prelude.{◌≡◌, ◌++◌, [], OnOk, map};
ghost use Rattle.document_notes.specs.DocumentNotes.{Gathers, IsNotedInRules, notes_together, on_rule};
ghost use Rattle.document_report.specs.DocumentPlaces.{locale_place_view};
ghost use Rattle.plural_documents.specs.Steps.{IsFoundInMembers};
ghost use Rattle.serde_json.specs.View.{members_view, view};

use crate::document_note::{DocumentNote, DocumentNotes};
use document_report::{FoundInTexts, KnownTexts, LocalePlace, texts_of};
use plural_fallback::Part;
use plural_reference::Sequence;
use rule_notes::{Note, notes_of};
use serde_json::{Map, Value};
use std::alloc::{AllocError, Global};

// That there is no note on texts.
#[derive(Clone, Copy)]
struct NoNote;

impl FoundInTexts for NoNote {
    ghost use Rattle.std.specs.Prelude.{[]};
    ghost use Rattle.rule_notes.specs.RuleNotes.{AreNotesOf};

    ghost IsFoundIn = { λ _ texts. AreNotesOf texts.five [] };
}

// Adds the notes of the rules of each locale of a part. Texts that are the same as others before them,
// on which there was no note, aren't looked at again.
pub(crate) fn add_languages<'a>(
    alloc: Global,
    part: Part,
    members: &'a Map<String, Value>,
    found: &mut DocumentNotes<'a>,
) -> Result<(), AllocError>
    ensures { OnOk result (Gathers (IsFoundInMembers [] notes_together (IsNotedInRules part) (members_view members.now.entries)) found.old found.new) }
{
    let mut known = KnownTexts::new(alloc);
    for (key, value) in members.iter() {
        add_language(alloc, part, key.as_str(), value, &mut known, found)?;
    }
    Ok(())
}

// Adds the notes of the rules of a locale.
fn add_language<'a>(
    alloc: Global,
    part: Part,
    locale: &'a str,
    value: &'a Value,
    known: &mut KnownTexts<'a, NoNote>,
    found: &mut DocumentNotes<'a>,
) -> Result<(), AllocError>
    ensures { OnOk result (Gathers (IsNotedInRules part locale.now (view value.now)) found.old found.new) }
{
    let texts = texts_of(value);
    if let Some(NoNote) = known.found_in(&texts) {
        return Ok(());
    }
    let notes = notes_of(alloc, &texts)?;
    if notes.as_slice().is_empty() {
        known.keep(texts, NoNote)?;
    }
    add_at(LocalePlace { part, locale }, notes, found)
}

// Adds notes on a locale.
fn add_at<'a>(
    place: LocalePlace<'a>,
    notes: Sequence<Note>,
    found: &mut DocumentNotes<'a>,
) -> Result<(), AllocError>
    ensures { OnOk result (found.new ≡ found.old ++ map (on_rule (locale_place_view place.entry)) notes) }
{
    for note in notes {
        found.add(DocumentNote::Rule(place, note))?;
    }
    Ok(())
}
