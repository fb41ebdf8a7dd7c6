//! Rules that are asked for the categories of many numbers.

ghost use Rattle.std.specs.Prelude.{◌≡◌, Contains, IfSome};
ghost use Rattle.plural_operands.specs.Operands.{of_whole};
ghost use Rattle.plural_runtime.specs.PackedTruth.{packed_truth};
ghost use Rattle.plural_base.specs.DecimalChoice.{IsTextAnswer};
ghost use Rattle.plural_base.specs.FiveRules.{categories_of, first_category};
ghost use Rattle.plural_base.specs.Inner.AskedRules.{rules_asked};

use crate::category::PluralCategory;
use crate::laws::kept_choice_is_exact;
use crate::rules::PluralRules;
use crate::rules::ordered::OrderedRules;
use crate::rules::prepared::PreparedRules;
use fixed_decimal::DecimalError;
use plural_reference::PluralOperands;
use std::alloc::{AllocError, Global};
use std::marker::Model;

// Up to so many numbers are asked of the rules themselves. Tables are made in 3,200 instructions in
// the mean of the rules of CLDR 41 (Arabic 8,600, Russian 12,000), a number is asked of rules in 60
// to 400, and of tables in 16 to 19.
const FEW_BEFORE_TABLES: u64 = 32;

// Up to so many numbers the ranges aren't put in order. This takes as long as comparing some twenty
// numbers with all of them, and most numbers are found among the first.
const FEW_BEFORE_ORDER: u64 = 128;

/// Rules that are asked for the categories of many numbers, in the way that costs least for so
/// many: as they are, by their tables ([`PreparedRules`]), or, where they have many ranges, with
/// these in order. The categories are those of the rules in each way.
#[derive(Debug)]
pub struct AskedRules<'data> {
    way: Way<'data>,
}

// Written out, so that each end of a value is one call.
impl Drop for AskedRules<'_> {
    fn drop(self) {
        let AskedRules { way: _ } = self;
    }
}

// How rules are asked.
#[derive(Debug, Drop)]
pub(crate) enum Way<'data> {
    // As they are.
    Rules(PluralRules<'data>),
    // As they are, since they have so many ranges that their tables aren't worth it.
    ManyRanges(PluralRules<'data>),
    // By their tables.
    Tables(PreparedRules<'data>),
    // With their ranges in order.
    Ordered(OrderedRules<'data>),
}

impl<'data> Model for AskedRules<'data> {
    ghost use Rattle.plural_base.specs.FiveRules.{FiveRules};

    ghost Value = { FiveRules };

    ghost use Rattle.plural_base.specs.Inner.AskedRules.{rules_asked};

    ghost view = { λ asked. rules_asked asked.way };
}

impl<'data> AskedRules<'data> {
    /// Returns these rules, which are asked as they are. It allocates nothing.
    pub fn of(rules: PluralRules<'data>) -> AskedRules<'data>
        ensures { result ≡ rules.entry }
    {
        AskedRules {
            way: Way::Rules(rules),
        }
    }

    /// Makes the tables of the rules, if that is worth it for so many numbers and the rules have
    /// few ranges ([`PluralRules::has_few_ranges`]). If it is called again, it makes none anew, and
    /// costs next to nothing. It allocates nothing.
    pub fn prepare(&mut self, count: u64)
        ensures { self.new ≡ self.old }
    {
        if count > FEW_BEFORE_TABLES
            && let Way::Rules(rules) = &mut self.way
        {
            let way = way_of_many(rules.taken());
            put(&mut self.way, way);
        }
    }

    /// Prepares the rules as [`AskedRules::prepare`] does, or, if they have many ranges, puts these in
    /// order where that is worth it for so many numbers: then a number is compared with few of
    /// them. If it is called again, it orders nothing anew. The only error is out of memory; then the
    /// rules are asked as they are.
    pub fn put_in_order(&mut self, alloc: Global, count: u64) -> Result<(), AllocError>
        ensures { self.new ≡ self.old }
    {
        self.prepare(count);
        if count > FEW_BEFORE_ORDER
            && let Way::ManyRanges(rules) = &mut self.way
        {
            match OrderedRules::of(alloc, rules) {
                Ok(ordered) => put(&mut self.way, Way::Ordered(ordered)),
                Err(error) => return Err(error),
            }
        }
        Ok(())
    }

    /// Returns the rules.
    pub fn rules(&self) -> &PluralRules<'data>
        ensures { result.now ≡ self.now }
    {
        match &self.way {
            Way::Rules(rules) | Way::ManyRanges(rules) => rules,
            Way::Tables(tables) => tables.rules(),
            Way::Ordered(ordered) => ordered.rules(),
        }
    }

    /// Returns the rules with their tables, if these are made.
    pub fn tables(&self) -> Option<&PreparedRules<'data>>
        ensures { IfSome result (λ tables. tables.now ≡ self.now) }
    {
        match &self.way {
            Way::Tables(tables) => Some(tables),
            _ => None,
        }
    }

    /// Returns the category of an integer, as [`PluralRules::category_for`] does by its operands.
    /// It allocates nothing.
    #[inline(always)]
    pub fn category_for_integer(&self, number: u64) -> PluralCategory
        ensures first { result ≡ first_category (packed_truth (of_whole number)) self.now }
        ensures member { Contains (categories_of self.now) result }
    {
        match &self.way {
            Way::Rules(rules) | Way::ManyRanges(rules) => rules.category_for(PluralOperands::from(
                number,
            )),
            Way::Tables(tables) => tables.category_for_integer(number),
            Way::Ordered(ordered) => ordered.category_for(&PluralOperands::from(number)),
        }
    }

    /// Returns the category of a number by its operands, as [`PluralRules::category_for`] does. It
    /// allocates nothing.
    #[inline(always)]
    pub fn category_for(&self, operands: PluralOperands) -> PluralCategory
        ensures first { result ≡ first_category (packed_truth operands) self.now }
        ensures member { Contains (categories_of self.now) result }
    {
        match &self.way {
            Way::Rules(rules) | Way::ManyRanges(rules) => rules.category_for(operands),
            Way::Tables(tables) => tables.category_for(operands),
            Way::Ordered(ordered) => ordered.category_for(&operands),
        }
    }

    /// Returns the category of the number that a text writes, as [`PluralRules::category_for_text`]
    /// does, and its errors.
    #[inline(always)]
    pub fn category_for_text(
        &self,
        alloc: Global,
        number: &str,
    ) -> Result<PluralCategory, DecimalError>
        ensures { IsTextAnswer self.now number.now result }
    {
        match &self.way {
            Way::Tables(tables) => tables.category_for_text(alloc, number),
            _ => self.by_text_operands(alloc, number),
        }
    }

    // The same by the operands of the text.
    #[inline(never)]
    fn by_text_operands(&self, alloc: Global, number: &str) -> Result<PluralCategory, DecimalError>
        ensures { IsTextAnswer self.now number.now result }
    {
        kept_choice_is_exact();
        match PluralOperands::from_compact_text(alloc, number) {
            Ok(operands) => Ok(self.category_for(operands)),
            Err(error) => Err(error),
        }
    }
}

// Puts a value in a place, in that of the one before it.
#[inline(always)]
fn put<T: Drop>(place: &mut T, value: T)
    ensures { place.new ≡ value }
{
    *place = value;
}

// How rules are asked for many numbers.
fn way_of_many(rules: PluralRules<'_>) -> Way<'_>
    ensures { rules_asked result ≡ rules.entry }
{
    if rules.has_few_ranges() {
        Way::Tables(PreparedRules::from_rules(rules))
    } else {
        Way::ManyRanges(rules)
    }
}
