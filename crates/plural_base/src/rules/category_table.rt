//! A table of the categories of integers, in bytes.

ghost use Rattle.std.specs.Prelude.{◌≡◌, ◌↔◌, ◌≤◌, length, IfSome, IsSome, MatchOption};
ghost use Rattle.std.specs.Int.{w64, from_le_bytes};
ghost use Rattle.plural_operands.specs.Operands.{of_whole};
ghost use Rattle.plural_runtime.specs.PackedTruth.{packed_truth};
ghost use Rattle.plural_base.specs.CategoryTables.{IsTableOf, TableTells, table_bound};
ghost use Rattle.plural_base.specs.FiveRules.{FiveRules, first_category};

use crate::category::PluralCategory;
use crate::rules::residue_class::CYCLE;
use crate::rules::table_bytes::{CYCLE_START, LOW, LOW_START, TABLE_LENGTH, told_by};
use std::marker::Model;

/// A table of the categories of integers, in bytes that may come from anywhere: those of
/// [`PreparedRules::to_table`] have the categories that the rules choose.
///
/// [`PreparedRules::to_table`]: crate::PreparedRules::to_table
#[derive(Debug, Drop)]
pub struct CategoryTable<'a> {
    bytes: &'a [u8],
}

impl<'a> Model for CategoryTable<'a> {
    ghost use Rattle.std.specs.Prelude.{◌≡◌, ℕ, List, length};

    ghost Value = { List ℕ };

    ghost view = { λ table. table.bytes.now };

    ghost invariant = { λ table. length table.bytes.now ≡ 236 };
}

impl<'a> CategoryTable<'a> {
    /// Returns the table in these bytes, if they are 236. What they hold isn't looked at.
    #[inline]
    pub fn from_bytes(bytes: &'a [u8]) -> Option<CategoryTable<'a>>
        ensures same { IfSome result (λ table. table ≡ bytes.now) }
        ensures found { IsSome result ↔ (length bytes.now ≡ 236) }
    {
        if bytes.len() == TABLE_LENGTH {
            Some(CategoryTable { bytes })
        } else {
            None
        }
    }

    /// Returns the category that the table has for an integer; `None` if the rules have to be
    /// asked. If it is a table of rules, the category is the one that they choose, and each number
    /// below 128 has one.
    #[inline]
    pub fn category_for_integer(&self, number: u64) -> Option<PluralCategory>
        ensures told { TableTells self.now number result }
        ensures category { (rules : FiveRules) → IsTableOf rules self.now
            → MatchOption result (128 ≤ number) (λ category. category ≡ first_category (packed_truth (of_whole number)) rules) }
    {
        self.told(number)
    }

    // What the table tells of a number.
    #[inline]
    fn told(&self, number: u64) -> Option<PluralCategory>
        ensures { TableTells self.now number result }
    {
        if number < LOW {
            return told_by(self.bytes[LOW_START + number as usize]);
        }
        if number < self.bound() {
            return None;
        }
        told_by(self.bytes[CYCLE_START + (number % CYCLE) as usize])
    }

    // The number from which on the remainders tell.
    #[inline]
    fn bound(&self) -> u64
        ensures { result ≡ table_bound self.now }
    {
        u64::from_le_bytes([
            self.bytes[0],
            self.bytes[1],
            self.bytes[2],
            self.bytes[3],
            self.bytes[4],
            self.bytes[5],
            self.bytes[6],
            self.bytes[7],
        ])
    }
}
