//! The categories of ranges.

ghost use Rattle.std.specs.Prelude.{◌≡◌, ◌≢◌, ◌==◌, ◌≤◌, ◌⊎◌, Some};
ghost use Rattle.plural_base.specs.declared.category.raw.RawPluralCategory.{RawPluralCategory as Category};
ghost use Rattle.plural_base.specs.Ranges.{category_at, no_ranges, row_size, size_of, with_range};

pub(crate) mod key;

use crate::category::by_category::ByCategory;
use crate::category::raw::{ALL, RawPluralCategory};
use std::marker::Model;

/// The categories that ranges of numbers have, by the categories of their starts and their ends
/// (UTS 35 Part 3, Plural Ranges): a map from pairs of categories to categories. A pair that is
/// absent has its end's category. Tables are equal if they hold the same pairs. Of its calls only
/// [`PluralRanges::to_json`] allocates.
///
/// <!-- snippet crates/example_calls/src/calls/ranges.rt: body of fn print_table -->
/// ```
/// let (one, few) = (RawPluralCategory::One, RawPluralCategory::Few);
/// let mut ranges = PluralRanges::new();
/// ranges.insert(one, few, few);
/// println!(rt; "{}", ranges.get(one, few) == Some(few))?;
/// println!(rt; "{}", ranges.get(few, one).is_none())?;
/// ```
///
/// This prints
///
/// <!-- snippet crates/example_calls/stdout: section a table of ranges -->
/// ```text
/// true
/// true
/// ```
#[derive(Clone, Copy, Debug, PartialEq)]
pub struct PluralRanges {
    rows: ByCategory<ByCategory<Option<RawPluralCategory>>>,
}

impl Model for PluralRanges {
    ghost use Rattle.std.specs.Prelude.{Option};
    ghost use Rattle.plural_base.specs.declared.category.by_category.ByCategory.{ByCategory};
    ghost use Rattle.plural_base.specs.declared.category.raw.RawPluralCategory.{RawPluralCategory};

    // At each start, and there at each end: the pair's category, if it has one.
    ghost Value = { ByCategory (ByCategory (Option RawPluralCategory)) };

    ghost view = { λ ranges. ranges.rows };

    ghost inverse = { λ rows. record { rows = rows } };
}

impl PluralRanges {
    /// Returns the table without pairs.
    pub fn new() -> PluralRanges
        ensures { result ≡ no_ranges }
    {
        PluralRanges {
            rows: ByCategory::all(ByCategory::all(None)),
        }
    }

    /// Returns the category of a pair, if it has one.
    #[inline]
    pub fn get(&self, start: RawPluralCategory, end: RawPluralCategory) -> Option<RawPluralCategory>
        ensures { result ≡ category_at self.now start end }
    {
        self.rows.get(start).get(end)
    }

    /// Gives a pair a category, and returns the one that it had before.
    pub fn insert(
        &mut self,
        start: RawPluralCategory,
        end: RawPluralCategory,
        category: RawPluralCategory,
    ) -> Option<RawPluralCategory>
        ensures before { result ≡ category_at self.old start end }
        ensures put { self.new ≡ with_range self.old start end category }
        // The pair has the category, and all others are as they were.
        ensures there { category_at self.new start end ≡ Some category }
        ensures others { (s : Category) (e : Category) → (s ≢ start) ⊎ (e ≢ end) → category_at self.new s e ≡ category_at self.old s e }
    {
        let mut row = self.rows.get(start);
        let before = row.get(end);
        row.set(end, Some(category));
        self.rows.set(start, row);
        before
    }

    /// Returns how many pairs have a category; at most 36.
    pub fn len(&self) -> usize
        ensures value { result ≡ size_of self.now }
        ensures bound { result ≤ 36 }
    {
        self.row_len(RawPluralCategory::Other)
            + self.row_len(RawPluralCategory::Zero)
            + self.row_len(RawPluralCategory::One)
            + self.row_len(RawPluralCategory::Two)
            + self.row_len(RawPluralCategory::Few)
            + self.row_len(RawPluralCategory::Many)
    }

    /// Returns whether no pair has a category.
    pub fn is_empty(&self) -> bool
        ensures { result ≡ (size_of self.now == 0) }
    {
        self.len() == 0
    }

    // How many ends have a category with a start.
    fn row_len(&self, start: RawPluralCategory) -> usize
        ensures value { result ≡ row_size self.now start }
        ensures bound { result ≤ 6 }
    {
        ALL.iter()
            .filter(|end| self.get(start, **end).is_some())
            .count()
    }
}

/// The table without pairs.
impl Default for PluralRanges {
    ghost is_default = { λ ranges. ranges ≡ no_ranges };

    fn default() -> PluralRanges {
        PluralRanges::new()
    }
}
