//! What stands in the way of a message's check.

use po_catalog::{Catalog, Entry};

// How a message stands.
#[derive(Clone, Copy)]
pub(crate) enum Standing {
    // It has no plural forms.
    Single,
    // None of its forms has a text.
    Untranslated,
    Fuzzy,
    Obsolete,
    // A line of it can't be read.
    Broken,
    // It is checked.
    Whole,
}

// How a message stands.
pub(crate) fn standing_of(entry: &Entry) -> Standing {
    if entry.plural_id.is_none() {
        return Standing::Single;
    }
    if entry.is_obsolete {
        return Standing::Obsolete;
    }
    if !entry.is_faulty && !has_text(entry) {
        return Standing::Untranslated;
    }
    if entry.is_fuzzy() {
        return Standing::Fuzzy;
    }
    if entry.is_faulty {
        Standing::Broken
    } else {
        Standing::Whole
    }
}

// Whether a form has a text.
fn has_text(entry: &Entry) -> bool {
    for it in entry.forms.iter() {
        if !it.bytes.is_empty() {
            return true;
        }
    }
    false
}

// How many messages with plural forms stand so.
#[derive(Clone, Copy)]
pub(crate) struct Standings {
    pub(crate) untranslated: u64,
    pub(crate) fuzzy: u64,
    pub(crate) obsolete: u64,
    pub(crate) broken: u64,
    pub(crate) whole: u64,
}

impl Standings {
    // How many there are, of which one at most is left out in each way.
    pub(crate) fn count(&self) -> u64 {
        let checked = self.whole.saturating_add(self.broken);
        let unfinished = self.untranslated.saturating_add(self.fuzzy);
        checked
            .saturating_add(unfinished)
            .saturating_add(self.obsolete)
    }

    // Counts a message.
    fn add(&mut self, standing: Standing) {
        let count = match standing {
            Standing::Single => return,
            Standing::Untranslated => &mut self.untranslated,
            Standing::Fuzzy => &mut self.fuzzy,
            Standing::Obsolete => &mut self.obsolete,
            Standing::Broken => &mut self.broken,
            Standing::Whole => &mut self.whole,
        };
        *count = count.saturating_add(1);
    }
}

// How the messages of a catalog stand.
pub(crate) fn standings_of(catalog: &Catalog) -> Standings {
    let mut standings = Standings {
        untranslated: 0,
        fuzzy: 0,
        obsolete: 0,
        broken: 0,
        whole: 0,
    };
    for entry in catalog.entries.iter() {
        standings.add(standing_of(entry));
    }
    standings
}
