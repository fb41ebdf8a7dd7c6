//! Where the messages of a file stand.

ghost use Rattle.std.specs.Prelude.{◌≡◌, IsSome, OnErr, OnOk, option_copied, string_bytes};
ghost use Rattle.std.specs.BTreeMap.{get_by_text};
ghost use Rattle.translation_files.specs.FilePlaces.{HasNoPlaces, KeepsPlaces, PutsPlace, place_at, places_of_kind};
ghost use Rattle.translation_files.specs.Inner.PlaceSteps.{HasNoLines, KeepsLines, KeepsTexts, PutsLines, PutsText};

use crate::lines::{MessageKind, MessageLines};
use std::alloc::{AllocError, Global};
use std::collections::BTreeMap;

// Where the messages of a locale stand, by their keys.
#[derive(Drop)]
struct LocalePlaces {
    cardinal: BTreeMap<String, MessageLines>,
    ordinal: BTreeMap<String, MessageLines>,
    patterns: BTreeMap<String, MessageLines>,
}

impl LocalePlaces {
    fn new(alloc: Global) -> LocalePlaces
        ensures { HasNoLines result }
    {
        LocalePlaces {
            cardinal: BTreeMap::new(alloc),
            ordinal: BTreeMap::new(alloc),
            patterns: BTreeMap::new(alloc),
        }
    }

    // Those of a kind.
    fn of_kind(&self, kind: MessageKind) -> &BTreeMap<String, MessageLines>
        ensures { result.now ≡ places_of_kind kind self.now }
    {
        match kind {
            MessageKind::Cardinal => &self.cardinal,
            MessageKind::Ordinal => &self.ordinal,
            MessageKind::Pattern => &self.patterns,
        }
    }

    // Puts a message.
    fn insert(
        &mut self,
        alloc: Global,
        kind: MessageKind,
        key: &str,
        lines: MessageLines,
    ) -> Result<(), AllocError>
        ensures ok { OnOk result (PutsLines kind key.now lines self.old self.new) }
        ensures err { OnErr result (KeepsLines self.old self.new) }
    {
        match String::from_str(alloc, key) {
            Ok(key) => self.put(kind, key, lines),
            Err(error) => {
                drop(lines);
                Err(error)
            }
        }
    }

    // Puts a message under its own key.
    fn put(&mut self, kind: MessageKind, key: String, lines: MessageLines) -> Result<(), AllocError>
        ensures ok { OnOk result (PutsLines kind (string_bytes key) lines self.old self.new) }
        ensures err { OnErr result (KeepsLines self.old self.new) }
    {
        match kind {
            MessageKind::Cardinal => insert(&mut self.cardinal, key, lines),
            MessageKind::Ordinal => insert(&mut self.ordinal, key, lines),
            MessageKind::Pattern => insert(&mut self.patterns, key, lines),
        }
    }
}

// Puts a value in place of another one of this key, which is dropped.
pub(crate) fn insert<T: Drop>(
    places: &mut BTreeMap<String, T>,
    key: String,
    value: T,
) -> Result<(), AllocError>
    ensures ok { OnOk result (PutsText (string_bytes key) value places.old places.new) }
    ensures err { OnErr result (KeepsTexts places.old places.new) }
{
    drop(places.insert(key, value)?);
    Ok(())
}

/// Where the messages of a file stand: by locale, kind and key.
pub struct Places {
    locales: BTreeMap<String, LocalePlaces>,
}

// Written out, so that each end of a value is one call.
impl Drop for Places {
    fn drop(self) {
        let Places { locales: _ } = self;
    }
}

impl Places {
    /// Returns the places of no message. It allocates nothing.
    pub fn new(alloc: Global) -> Places
        ensures { HasNoPlaces result }
    {
        Places {
            locales: BTreeMap::new(alloc),
        }
    }

    /// Returns where a message stands, if it is known.
    pub fn find(&self, locale: &str, kind: MessageKind, key: &str) -> Option<&MessageLines>
        ensures { option_copied result ≡ place_at self.now locale.now kind key.now }
    {
        self.locales.get(locale)?.of_kind(kind).get(key)
    }

    /// Puts a message, in place of another one of this locale, kind and key. It allocates; the only
    /// error is out of memory.
    pub fn insert(
        &mut self,
        alloc: Global,
        locale: &str,
        kind: MessageKind,
        key: &str,
        lines: MessageLines,
    ) -> Result<(), AllocError>
        ensures ok { OnOk result (PutsPlace locale.now kind key.now lines self.old self.new) }
        ensures err { OnErr result (KeepsPlaces self.old self.new) }
    {
        match self.add_locale(alloc, locale) {
            Ok(()) => self.put(alloc, locale, kind, key, lines),
            Err(error) => {
                drop(lines);
                Err(error)
            }
        }
    }

    // Puts a message of a locale that is there.
    fn put(
        &mut self,
        alloc: Global,
        locale: &str,
        kind: MessageKind,
        key: &str,
        lines: MessageLines,
    ) -> Result<(), AllocError>
        requires { IsSome (get_by_text self.old.locales locale.now) }
        ensures ok { OnOk result (PutsPlace locale.now kind key.now lines self.old self.new) }
        ensures err { OnErr result (KeepsPlaces self.old self.new) }
    {
        match self.locales.get_mut(locale) {
            Some(places) => places.insert(alloc, kind, key, lines),
            None => {
                drop(lines);
                Ok(())
            }
        }
    }

    // Adds a locale, unless it is there.
    fn add_locale(&mut self, alloc: Global, locale: &str) -> Result<(), AllocError>
        ensures keeps { KeepsPlaces self.old self.new }
        ensures there { OnOk result (IsSome (get_by_text self.new.locales locale.now)) }
    {
        if self.locales.contains_key(locale) {
            return Ok(());
        }
        let name = String::from_str(alloc, locale)?;
        insert(&mut self.locales, name, LocalePlaces::new(alloc))
    }
}
