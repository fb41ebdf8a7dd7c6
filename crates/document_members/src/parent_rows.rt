//! The parents of a document, found by the names of their locales.

ghost use Rattle.std.specs.Prelude.{◌≡◌, ℕ, List, None, Some, IfOk, OnOk, is_some, map, bytes_eq, if◌then◌else◌};
ghost use Rattle.std.specs.Option.{option_or};
ghost use Rattle.document_members.specs.Inner.Rows.{AreUpTo, row_at, row_seen, row_text};
ghost use Rattle.plural_fallback.specs.LocaleNames.{folded};
ghost use Rattle.serde_json.specs.View.{members_view};

use plural_fallback::{Locales, Part};
use serde_json::{Map, Value};
use std::alloc::{AllocError, Global};
use std::collections::BTreeMap;

// A locale, its parent: the text of its member, if the member has one, and its place among the
// members.
#[derive(Clone, Copy)]
pub(crate) struct Row<'a> {
    name: &'a str,
    parent: Option<&'a str>,
    place: Option<usize>,
}

impl<'a> Row<'a> {
    // The place, if the row leads from its own name to the next locale, or has that as its parent:
    // then it leads nowhere else, but by what stands before the last subtag of a locale in another
    // case.
    pub(crate) fn place_if_always(&self, locale: &[u8], next: &[u8]) -> Option<usize> {
        let is_parent = match self.parent {
            Some(parent) => parent.as_bytes() == next,
            None => false,
        };
        if is_parent || self.name.as_bytes() == locale {
            self.place
        } else {
            None
        }
    }
}

// The one parent, whichever locale is asked for, and no keys.
impl<'a> Locales for Row<'a> {
    ghost use Rattle.std.specs.Prelude.{[]};
    ghost use Rattle.document_members.specs.Inner.Rows.{row_text};

    ghost keys = { λ row part. [] };

    ghost parent = { λ row locale. row_text row };

    fn find_key(&self, _part: Part, _locale: &[u8]) -> Option<&str> {
        None
    }

    fn find_parent(&self, _locale: &[u8]) -> Option<&str> {
        self.parent
    }
}

/// The parents of a document: those of the first locale of each name in lower case, with `_` as
/// `-`, by this, and those of the others by their exact names.
#[derive(Drop)]
pub struct Parents<'a> {
    folded: BTreeMap<Vec<u8>, Row<'a>>,
    exact: BTreeMap<Vec<u8>, Row<'a>>,
    absent: Row<'a>,
    // The most bytes of a name.
    longest: usize,
    ghost names: { AreUpTo longest (row_at folded) },
}

impl<'a> Parents<'a> {
    ghost use Rattle.document_members.specs.ParentRows.{named_parent, parent_among, parent_by};

    /// Returns the parents that the members of the part `parents` name, or out of memory.
    pub fn of(alloc: Global, members: &'a Map<String, Value>) -> Result<Parents<'a>, AllocError>
        ensures { IfOk result (λ parents. (locale : List ℕ)
            → named_parent parents locale ≡ parent_among (members_view members.now.entries) locale) }
    {
        let mut folded = BTreeMap::new(alloc);
        let mut exact = BTreeMap::new(alloc);
        let absent = Row {
            name: "",
            parent: None,
            place: None,
        };
        match Parents::put_all(alloc, members, &mut folded, &mut exact) {
            Ok(longest) => Ok(Parents {
                folded,
                exact,
                absent,
                longest,
            }),
            Err(error) => Err(error),
        }
    }

    // Puts a row for each member, where there are none. The most bytes of a name.
    fn put_all(
        alloc: Global,
        members: &'a Map<String, Value>,
        firsts: &mut BTreeMap<Vec<u8>, Row<'a>>,
        others: &mut BTreeMap<Vec<u8>, Row<'a>>,
    ) -> Result<usize, AllocError>
        requires firsts { (name : List ℕ) → row_at firsts.old name ≡ None }
        requires others { (name : List ℕ) → row_at others.old name ≡ None }
        ensures parents { IfOk result (λ _. (locale : List ℕ)
            → parent_by None locale (row_at firsts.new (map folded locale)) (row_at others.new locale)
            ≡ parent_among (members_view members.now.entries) locale) }
        ensures longest { IfOk result (λ longest. AreUpTo longest (row_at firsts.new)) }
    {
        let mut longest = 0;
        let mut count = 0_usize;
        for (key, value) in members.iter() {
            let name = key.as_str();
            let row = Row {
                name,
                parent: value.as_str(),
                place: Some(count),
            };
            put(alloc, firsts, others, row)?;
            longest = longest.max(name.len());
            count = count.saturating_add(1);
        }
        Ok(longest)
    }

    // The row of a locale. Of a front of many subtags the length tells mostly that it has none.
    pub(crate) fn row(&self, alloc: Global, locale: &[u8]) -> Result<&Row<'a>, AllocError>
        ensures { IfOk result (λ row. row_text row.now ≡ named_parent self.now locale.now) }
    {
        if locale.len() > self.longest {
            return Ok(&self.absent);
        }
        let name = folded_name(alloc, locale)?;
        let Some(row) = self.folded.get(name.as_slice()) else {
            return Ok(&self.absent);
        };
        if row.name.as_bytes() == locale {
            return Ok(row);
        }
        match self.exact.get(locale) {
            Some(other) => Ok(other),
            None => Ok(row),
        }
    }
}

// Puts a row under its folded name, or if there is one already, under its exact name.
fn put<'a>(
    alloc: Global,
    firsts: &mut BTreeMap<Vec<u8>, Row<'a>>,
    others: &mut BTreeMap<Vec<u8>, Row<'a>>,
    row: Row<'a>,
) -> Result<(), AllocError>
    ensures firsts { OnOk result ((name : List ℕ) → row_at firsts.new name
        ≡ option_or (row_at firsts.old name)
        (if bytes_eq name (map folded row.entry.name.now) then Some (row_seen row.entry) else None)) }
    ensures others { OnOk result ((name : List ℕ) → row_at others.new name
        ≡ (if is_some (row_at firsts.old (map folded row.entry.name.now))
        then option_or (row_at others.old name) (if bytes_eq name row.entry.name.now then Some (row_seen row.entry) else None)
        else row_at others.old name)) }
{
    let name = folded_name(alloc, row.name.as_bytes())?;
    if firsts.contains_key(name.as_slice()) {
        let name = Vec::from_slice(alloc, row.name.as_bytes())?;
        return put_first(others, name, row);
    }
    firsts.insert(name, row)?;
    Ok(())
}

// Puts a row under a name, unless there is one.
fn put_first<'a>(
    rows: &mut BTreeMap<Vec<u8>, Row<'a>>,
    name: Vec<u8>,
    row: Row<'a>,
) -> Result<(), AllocError>
    ensures { OnOk result ((other : List ℕ) → row_at rows.new other
        ≡ option_or (row_at rows.old other) (if bytes_eq other name.items then Some (row_seen row.entry) else None)) }
{
    if rows.contains_key(name.as_slice()) {
        return Ok(());
    }
    rows.insert(name, row)?;
    Ok(())
}

// A name in lower case, with `_` as `-`.
fn folded_name(alloc: Global, name: &[u8]) -> Result<Vec<u8>, AllocError>
    ensures { IfOk result (λ bytes. bytes.items ≡ map folded name.now) }
{
    name.iter()
        .map(|byte| folded(*byte))
        .collect::<Vec<u8>>(alloc)
}

// A byte in lower case, and `_` as `-`.
fn folded(byte: u8) -> u8
    ensures { result ≡ folded byte }
{
    if byte == b'_' {
        return b'-';
    }
    byte.to_ascii_lowercase()
}
