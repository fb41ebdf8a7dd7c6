//! What is told, as JSON objects.

ghost use Rattle.std.specs.Prelude.{◌≡◌, codes, IfOk, OnOk};
ghost use Rattle.finding_formats.specs.LocatedFindings.{lent_text, located_view, notice_view, told_view};
ghost use Rattle.finding_formats.specs.LocatedObjects.{located_data, notice_members, told_members, totals_data, with_line, with_placeholder};
ghost use Rattle.serde_json.specs.View.{members_view, view};

use crate::finding_object::finding_members;
use crate::located::Located;
use crate::located_words::located_words;
use crate::members::{put_number, put_text};
use crate::notice::Notice;
use crate::severity::severity_word;
use crate::told::Told;
use crate::totals::Totals;
use serde_json::{Map, Value, json, put};
use std::alloc::{AllocError, Global};

// The object of one.
pub(crate) fn located_value(alloc: Global, one: &Located<'_>) -> Result<Value, AllocError>
    ensures { IfOk result (λ value. view value ≡ located_data (located_view one.now)) }
{
    let words = located_words(alloc, one)?;
    let mut members = told_members(alloc, &one.told, words.as_str())?;
    put_line(alloc, &mut members, one.known_line())?;
    put_placeholder(alloc, &mut members, one.placeholder)?;
    Ok(Value::Object(members))
}

// The members of the object of what is told, given its words.
fn told_members(
    alloc: Global,
    told: &Told<'_>,
    words: &str,
) -> Result<Map<String, Value>, AllocError>
    ensures { IfOk result (λ members. members_view members.entries ≡ told_members (told_view told.now) words.now) }
{
    match *told {
        Told::Finding(finding) => finding_members(alloc, &finding, words),
        Told::Notice(notice) => notice_members(alloc, notice, words),
    }
}

// The members of the object of a notice, given its words.
fn notice_members(
    alloc: Global,
    notice: Notice<'_>,
    words: &str,
) -> Result<Map<String, Value>, AllocError>
    ensures { IfOk result (λ members. members_view members.entries ≡ notice_members (notice_view notice.entry) words.now) }
{
    let mut members = Map::new(alloc);
    let cause = json!(in alloc; {"code": notice.code})?;
    put(&mut members, alloc, "cause", cause)?;
    put_text(alloc, &mut members, "file", notice.file)?;
    let severity = severity_word(notice.severity);
    put_text(alloc, &mut members, "severity", severity)?;
    put_text(alloc, &mut members, "text", words)?;
    Ok(members)
}

// Puts the line, if it is known.
fn put_line(
    alloc: Global,
    members: &mut Map<String, Value>,
    line: Option<u64>,
) -> Result<(), AllocError>
    ensures { OnOk result (members_view members.new.entries ≡ with_line line (members_view members.old.entries)) }
{
    match line {
        Some(line) => put_number(alloc, members, "line", line),
        None => Ok(()),
    }
}

// Puts what says the number, if it is known.
fn put_placeholder(
    alloc: Global,
    members: &mut Map<String, Value>,
    placeholder: Option<&str>,
) -> Result<(), AllocError>
    ensures { OnOk result (members_view members.new.entries
        ≡ with_placeholder (lent_text placeholder.entry) (members_view members.old.entries)) }
{
    match placeholder {
        Some(placeholder) => put_text(alloc, members, "placeholder", placeholder),
        None => Ok(()),
    }
}

// The object of the totals.
pub(crate) fn totals_value(alloc: Global, totals: Totals) -> Result<Value, AllocError>
    ensures { IfOk result (λ value. view value ≡ totals_data totals) }
{
    json!(in alloc; {"counts": {
        "faults": totals.faults,
        "forms": totals.forms,
        "left_out": totals.left_out,
        "messages": totals.messages,
        "notes": totals.notes
    }})
}
