//! Rules with tables of the categories of integers.

ghost use Rattle.std.specs.Prelude.{◌≡◌, ℕ, ◌<◌, Contains, slice_index_or, None};
ghost use Rattle.plural_operands.specs.Operands.{Operands, of_whole};
ghost use Rattle.plural_runtime.specs.PackedTruth.{packed_truth};
ghost use Rattle.plural_base.specs.FiveRules.{first_category, categories_of, rules_of};
ghost use Rattle.plural_base.specs.CategoryTables.{IsTableOf};
ghost use Rattle.plural_base.specs.Inner.FractionClasses.{AreAllFractionsTold, IsFractionCategory, IsOfFractions, class_of, fraction_category, is_told_of_fraction};
ghost use Rattle.plural_base.specs.Inner.WholeNumbers.{AreAllTold, AreLowEntries, IsTold, category_of_whole, told_category};
ghost use Rattle.plural_base.specs.ToldCategories.{TellsAll};

use crate::category::PluralCategory;
use crate::rules::PluralRules;
use crate::rules::as_plural_rules::AsPluralRules;
use crate::rules::data::PluralRulesData;
use crate::rules::few_ranges::has_few_ranges;
use crate::rules::fractions::{ALL_FRACTIONS, FractionClasses, Fractions, fractions_of};
use crate::rules::low_numbers::LowNumbers;
use crate::rules::residue_class::{ALL_RESIDUES, CYCLE, ResidueClasses, bound_of};
use crate::rules::table_bytes::{LOW, TABLE_LENGTH, table_bytes};
use crate::rules::told::tell_categories;
use plural_reference::PluralOperands;
use std::marker::Model;

/// Rules with the categories of integers in two tables, which are made once: one of the numbers
/// below 128, and one of the remainders by 100, for all numbers above the ends of the rules.
/// Where the remainder doesn't tell, as under a modulus 1000000, the rules are asked. Beside them
/// is the category of all numbers that show a fraction, if the rules have one for all.
#[derive(Debug)]
pub struct PreparedRules<'data> {
    rules: PluralRules<'data>,
    bound: u64,
    low: [PluralCategory; 128],
    cycle: [Option<PluralCategory>; 100],
    shown: Option<PluralCategory>,
    not_zero: Option<PluralCategory>,
}

// Written out, so that each end of a value is one call.
impl Drop for PreparedRules<'_> {
    fn drop(self) {
        let PreparedRules {
            rules: _,
            bound: _,
            low: _,
            cycle: _,
            shown: _,
            not_zero: _,
        } = self;
    }
}

impl<'data> Model for PreparedRules<'data> {
    ghost use Rattle.plural_base.specs.FiveRules.{FiveRules};

    ghost Value = { FiveRules };

    ghost use Rattle.std.specs.Prelude.{◌≡◌};
    ghost use Rattle.plural_base.specs.Inner.FractionClasses.{AreAllFractionsTold, AreFractionCategories};
    ghost use Rattle.plural_base.specs.Inner.WholeNumbers.{AreAllTold, AreLowEntries, AreTold};
    ghost use Rattle.plural_base.specs.ToldCategories.{ends_of_rules, first_above};

    ghost view = { λ prepared. prepared.rules };

    ghost invariant = { λ prepared.
        AreLowEntries prepared.rules prepared.low × AreTold prepared.rules prepared.bound prepared.cycle
        × AreFractionCategories prepared.rules prepared.shown prepared.not_zero
        × (prepared.bound ≡ first_above (ends_of_rules prepared.rules)) × AreAllTold prepared.rules prepared.bound prepared.cycle
        × AreAllFractionsTold prepared.rules prepared.shown prepared.not_zero };
}

impl<'data> PreparedRules<'data> {
    /// Returns these rules with their tables. It allocates nothing.
    pub fn from_rules(rules: PluralRules<'data>) -> PreparedRules<'data>
        ensures { result ≡ rules.entry }
    {
        let bound = bound_of(&rules.data);
        let low = low_categories(&rules);
        let cycle = cycle_categories(&rules.data, bound);
        let [shown, not_zero] = fraction_categories(&rules.data);
        PreparedRules {
            rules,
            bound,
            low,
            cycle,
            shown,
            not_zero,
        }
    }

    /// Returns the rules.
    pub fn rules(&self) -> &PluralRules<'data>
        ensures { result.now ≡ self.now }
    {
        &self.rules
    }

    /// Returns the category of an integer, as [`PluralRules::category_for`] does by its operands.
    /// It allocates nothing.
    #[inline]
    pub fn category_for_integer(&self, number: u64) -> PluralCategory
        ensures first { result ≡ first_category (packed_truth (of_whole number)) self.now }
        ensures member { Contains (categories_of self.now) result }
    {
        self.by_tables(number)
    }

    /// Returns the tables as bytes, which [`CategoryTable`] reads. It allocates nothing.
    ///
    /// [`CategoryTable`]: crate::CategoryTable
    pub fn to_table(&self) -> [u8; TABLE_LENGTH]
        ensures of { IsTableOf self.now result }
        ensures all { TellsAll self.now result }
    {
        table_bytes(self.bound, &self.low, &self.cycle)
    }

    // The category by the tables where they have it, else by the rules.
    #[inline]
    pub(crate) fn by_tables(&self, number: u64) -> PluralCategory
        ensures { result ≡ first_category (packed_truth (of_whole number)) self.now }
    {
        if number < LOW {
            return self.low[number as usize];
        }
        if number >= self.bound {
            let told = self.cycle[(number % CYCLE) as usize];
            if let Some(category) = told {
                return category;
            }
        }
        asked(&self.rules, number)
    }

    // The category of all numbers that show a fraction as these operands do, if it is told.
    #[inline]
    pub(crate) fn told_of_fraction(&self, operands: PluralOperands) -> Option<PluralCategory>
        ensures told { IsTold (first_category (packed_truth operands) self.now) result }
        ensures all { result ≡ fraction_category self.now operands }
    {
        match fractions_of(operands) {
            Some(fractions) => self.told_of_fractions(fractions),
            None => None,
        }
    }

    // The category of all numbers that show such a fraction, if it is told.
    #[inline]
    fn told_of_fractions(&self, fractions: Fractions) -> Option<PluralCategory>
        ensures told { IsFractionCategory self.now fractions result }
        ensures all { (o : Operands) → IsOfFractions fractions o
            → result ≡ told_category (is_told_of_fraction (class_of fractions)) o self.now }
    {
        match fractions {
            Fractions::Shown => self.shown,
            Fractions::NotZero => self.not_zero,
        }
    }
}

impl<'data> AsPluralRules<'data> for PreparedRules<'data> {
    ghost rules = { λ rules. rules };

    fn as_plural_rules(&self) -> &PluralRules<'data> {
        &self.rules
    }
}

// The category of an integer by the rules themselves.
#[inline(never)]
fn asked(rules: &PluralRules<'_>, number: u64) -> PluralCategory
    ensures { result ≡ first_category (packed_truth (of_whole number)) rules.now }
{
    rules.category_for(PluralOperands::from(number))
}

// The categories of the numbers below 128.
fn low_categories(rules: &PluralRules<'_>) -> [PluralCategory; 128]
    ensures { AreLowEntries rules.now result }
{
    let told = told_low(&rules.data);
    let mut low = [PluralCategory::Other; 128];
    for k in 0..128usize {
        low[k] = low_category(rules, told[k], k as u64);
    }
    low
}

// The categories of these numbers as far as they are told. Rules of many ranges are asked for each
// number: they read no more than it needs.
fn told_low(rules: &PluralRulesData<'_>) -> [Option<PluralCategory>; 128]
    ensures { (n : ℕ) → n < 128 → IsTold (category_of_whole (rules_of rules.now) n) (slice_index_or result n None) }
{
    if !has_few_ranges(rules) {
        return [None; 128];
    }
    let mut told = [Some(PluralCategory::Other); 128];
    tell_categories(rules, LowNumbers, u128::MAX, &mut told);
    told
}

// The category of a number: the one that is told of it, else by the rules themselves.
#[inline]
fn low_category(
    rules: &PluralRules<'_>,
    told: Option<PluralCategory>,
    number: u64,
) -> PluralCategory
    requires { IsTold (category_of_whole rules.now number) told }
    ensures { result ≡ category_of_whole rules.now number }
{
    match told {
        Some(category) => category,
        None => asked(rules, number),
    }
}

// The categories of all numbers from the bound on, by their remainder by 100, where that tells.
fn cycle_categories(rules: &PluralRulesData<'_>, bound: u64) -> [Option<PluralCategory>; 100]
    ensures { AreAllTold (rules_of rules.now) bound result }
{
    let mut cycle = [Some(PluralCategory::Other); 100];
    tell_categories(rules, ResidueClasses { bound }, ALL_RESIDUES, &mut cycle);
    cycle
}

// The categories of all numbers that show a fraction, and of those whose fraction isn't 0, where
// they have one.
fn fraction_categories(rules: &PluralRulesData<'_>) -> [Option<PluralCategory>; 2]
    ensures { AreAllFractionsTold (rules_of rules.now) (slice_index_or result 0 None) (slice_index_or result 1 None) }
{
    let mut fractions = [Some(PluralCategory::Other); 2];
    tell_categories(rules, FractionClasses, ALL_FRACTIONS, &mut fractions);
    fractions
}
