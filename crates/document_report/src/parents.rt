//! What is found in the parents of a document.

ghost use Rattle.std.specs.Prelude.{◌≡◌, codes, Some, OnOk, option_map};
ghost use Rattle.std.specs.Option.{option_and_then, option_copied};
ghost use Rattle.document_report.specs.FoundInDocuments.{together, HasGrownInDocument, IsFoundInDocumentMembers};
ghost use Rattle.document_members.specs.ChainSteps.{AreKnown, short_next};
ghost use Rattle.document_members.specs.ParentRows.{named_parent, parent_among};
ghost use Rattle.document_report.specs.ParentFaults.{found_of_chain, found_of_child, found_of_parent, found_of_shape};
ghost use Rattle.document_report.specs.ParentFaults.{IsFoundInParent, IsFoundInParents};
ghost use Rattle.serde_json.specs.Find.{as_object, get};
ghost use Rattle.serde_json.specs.View.{members_view, view};

use crate::cause::Cause;
use crate::finding_place::FindingPlace;
use crate::found::Found;
use document_members::{KnownChains, Parents, goes_on, is_long_name};
use serde_json::{Map, Value};
use std::alloc::{AllocError, Global};

// Adds what is found in the parents of a document.
pub(crate) fn add_parents<'a>(
    alloc: Global,
    document: &'a Value,
    found: &mut Found<'a>,
) -> Result<(), AllocError>
    ensures { OnOk result (HasGrownInDocument (IsFoundInParents (view document.now)) found.old found.new) }
{
    add_shape(document.get("parents"), found)?;
    match parents_of(document) {
        Some(members) => add_named(alloc, members, found),
        None => Ok(()),
    }
}

// The members of the part `parents`, if it is an object.
fn parents_of(document: &Value) -> Option<&Map<String, Value>>
    ensures { option_map (λ m. members_view m.now.entries) result
        ≡ option_and_then as_object (get (codes "parents") (view document.now)) }
{
    document.get("parents")?.as_object()
}

// Adds a fault if the part is there, and neither null nor an object.
fn add_shape(value: Option<&Value>, found: &mut Found<'_>) -> Result<(), AllocError>
    ensures { OnOk result (found.new ≡ together found.old (found_of_shape (option_map (λ v. view v.now) value.entry))) }
{
    match value {
        Some(value) => add_value(value, found),
        None => Ok(()),
    }
}

// Adds a fault if the part is neither null nor an object.
fn add_value(value: &Value, found: &mut Found<'_>) -> Result<(), AllocError>
    ensures { OnOk result (found.new ≡ together found.old (found_of_shape (Some (view value.now)))) }
{
    if value.is_null() || value.is_object() {
        return Ok(());
    }
    found.add_fault(FindingPlace::Parents, Cause::NoObject)
}

// Adds what is found in each member.
fn add_named<'a>(
    alloc: Global,
    members: &'a Map<String, Value>,
    found: &mut Found<'a>,
) -> Result<(), AllocError>
    ensures { OnOk result (HasGrownInDocument (IsFoundInDocumentMembers (IsFoundInParent (parent_among (members_view members.now.entries)))
        (members_view members.now.entries)) found.old found.new) }
{
    let parents = Parents::of(alloc, members)?;
    add_all(alloc, &parents, members, found)
}

// Adds what is found in each member, beside all parents.
fn add_all<'p, 'a: 'p>(
    alloc: Global,
    parents: &'p Parents<'_>,
    members: &'a Map<String, Value>,
    found: &mut Found<'a>,
) -> Result<(), AllocError>
    ensures { OnOk result (HasGrownInDocument (IsFoundInDocumentMembers (IsFoundInParent (named_parent parents.now))
        (members_view members.now.entries)) found.old found.new) }
{
    let mut chains = KnownChains::new(alloc, members.len())?;
    for (key, value) in members.iter() {
        add_member(alloc, parents, &mut chains, key.as_str(), value, found)?;
    }
    Ok(())
}

// Adds what is found in a member, beside all parents and what is known of their chains.
fn add_member<'p, 'a: 'p>(
    alloc: Global,
    parents: &'p Parents<'_>,
    chains: &mut KnownChains<'p>,
    key: &'a str,
    value: &Value,
    found: &mut Found<'a>,
) -> Result<(), AllocError>
    requires { AreKnown (short_next (named_parent parents.now)) chains.old }
    ensures found { OnOk result (HasGrownInDocument (IsFoundInParent (named_parent parents.now) key.now (view value.now))
        found.old found.new) }
    ensures known { OnOk result (AreKnown (short_next (named_parent parents.now)) chains.new) }
{
    add_child(key, found)?;
    add_parent(key, value.as_str(), found)?;
    add_chain(alloc, parents, chains, key, found)
}

// Adds a fault if the key is long.
fn add_child<'a>(locale: &'a str, found: &mut Found<'a>) -> Result<(), AllocError>
    ensures { OnOk result (found.new ≡ together found.old (found_of_child locale.now)) }
{
    if !is_long_name(locale) {
        return Ok(());
    }
    found.add_fault(FindingPlace::Parent(locale), Cause::LongKey)
}

// Adds a fault if the parent is no text, or a long one.
fn add_parent<'a>(
    locale: &'a str,
    parent: Option<&str>,
    found: &mut Found<'a>,
) -> Result<(), AllocError>
    ensures { OnOk result (found.new ≡ together found.old (found_of_parent locale.now (option_copied parent.entry))) }
{
    match parent {
        Some(parent) => add_text(locale, parent, found),
        None => found.add_fault(FindingPlace::Parent(locale), Cause::NoText),
    }
}

// Adds a fault if the parent is long.
fn add_text<'a>(locale: &'a str, parent: &str, found: &mut Found<'a>) -> Result<(), AllocError>
    ensures { OnOk result (found.new ≡ together found.old (found_of_parent locale.now (Some parent.now))) }
{
    if !is_long_name(parent) {
        return Ok(());
    }
    found.add_fault(FindingPlace::Parent(locale), Cause::LongParent)
}

// Adds a fault if the chain of a locale doesn't end.
fn add_chain<'p, 'a: 'p>(
    alloc: Global,
    parents: &'p Parents<'_>,
    chains: &mut KnownChains<'p>,
    locale: &'a str,
    found: &mut Found<'a>,
) -> Result<(), AllocError>
    requires { AreKnown (short_next (named_parent parents.now)) chains.old }
    ensures found { OnOk result (found.new ≡ together found.old (found_of_chain (named_parent parents.now) locale.now)) }
    ensures known { OnOk result (AreKnown (short_next (named_parent parents.now)) chains.new) }
{
    if !goes_on(alloc, parents, chains, locale.as_bytes())? {
        return Ok(());
    }
    found.add_fault(FindingPlace::Parent(locale), Cause::EndlessChain)
}
