//! Rows by locale in the order of their keys, among which a locale is found by halves.

ghost use Rattle.std.specs.Prelude.{◌≡◌, ◌++◌, [], ◌∷◌, IfOk, OnOk, string_bytes};
ghost use Rattle.std.specs.Map.{keys_of};
ghost use Rattle.std.specs.Option.{option_copied};
ghost use Rattle.plural_base.specs.DocumentJson.{found};
ghost use Rattle.plural_base.specs.Inner.JsonSteps.{Ascend};

use std::alloc::{AllocError, Global};
use std::cmp::Ordering;
use std::fmt::{self, Debug, Formatter, Write};
use std::marker::Model;

// What locales have, in the order of the locales' bytes. Contracts see the rows.
#[derive(Drop)]
pub(crate) struct SortedRows<T> {
    entries: Vec<(String, T)>,
}

impl<T> Model for SortedRows<T> {
    ghost use Rattle.std.specs.Prelude.{map};
    ghost use Rattle.std.specs.Map.{keys_of};
    ghost use Rattle.plural_base.specs.DocumentJson.{Rows};
    ghost use Rattle.plural_base.specs.Inner.JsonSteps.{Ascend, row_of_entry};

    ghost Value = { Rows T };

    ghost view = { λ rows. map row_of_entry rows.entries.items };

    ghost invariant = { λ rows. Ascend (keys_of (map row_of_entry rows.entries.items)) };
}

// Printed as a map is.
impl<T: Debug> Debug for SortedRows<T> {
    fn fmt<W: Write>(&self, f: &mut Formatter<W>) -> fmt::Result {
        let mut rows = f.debug_map();
        for (locale, row) in self.entries.as_slice() {
            rows.entry(locale, row);
        }
        rows.finish()
    }
}

impl<T: Drop> SortedRows<T> {
    // No rows.
    pub(crate) fn new(alloc: Global) -> SortedRows<T>
        ensures { result ≡ [] }
    {
        SortedRows {
            entries: Vec::new(alloc),
        }
    }

    // No rows, with room for so many.
    pub(crate) fn with_capacity(alloc: Global, count: usize) -> Result<SortedRows<T>, AllocError>
        ensures { IfOk result (λ rows. rows ≡ []) }
    {
        Ok(SortedRows {
            entries: Vec::with_capacity(alloc, count)?,
        })
    }

    // Puts a row behind the last one.
    pub(crate) fn push(&mut self, locale: String, row: T) -> Result<(), AllocError>
        requires { Ascend (keys_of self.old ++ string_bytes locale ∷ []) }
        ensures { OnOk result (self.new ≡ self.old ++ (string_bytes locale, row) ∷ []) }
    {
        self.entries.push((locale, row))?;
        Ok(())
    }

    // What a locale has.
    pub(crate) fn get(&self, locale: &str) -> Option<&T>
        ensures { option_copied result ≡ found locale.now self.now }
    {
        let entries = self.entries.as_slice();
        let (mut low, mut high) = (0, entries.len());
        while low < high {
            let middle = low + (high - low) / 2;
            let entry = &entries[middle];
            match locale.cmp(entry.0.as_str()) {
                Ordering::Less => high = middle,
                Ordering::Equal => return Some(&entry.1),
                Ordering::Greater => low = middle + 1,
            }
        }
        None
    }
}
