//! The rules of one language, and the categories that they choose.

ghost use Rattle.std.specs.Prelude.{◌≡◌, ◌↔◌, ◌++◌, [], ◌∷◌, IsTrue, List, Contains};
ghost use Rattle.plural_runtime.specs.PackedTruth.{packed_truth};
ghost use Rattle.plural_base.specs.FiveRules.{first_category, passes, categories_of};
ghost use Rattle.plural_base.specs.RuleSizes.{HaveFewRanges};
ghost use Rattle.plural_base.specs.declared.category.PluralCategory.TheVariants.{Other};

pub(crate) mod as_plural_rules;
pub(crate) mod asked;
pub(crate) mod bytes;
pub(crate) mod categories;
pub(crate) mod category_table;
pub(crate) mod data;
pub(crate) mod few_ranges;
pub(crate) mod fractions;
pub(crate) mod known;
pub(crate) mod low_numbers;
pub(crate) mod masks;
pub(crate) mod ordered;
pub(crate) mod prepared;
pub(crate) mod prepared_text;
pub(crate) mod range_ends;
pub(crate) mod residue_class;
pub(crate) mod table_bytes;
pub(crate) mod text;
pub(crate) mod told;
pub(crate) mod told_masks;

use crate::category::PluralCategory;
use crate::for_five;
use crate::rules::categories::Categories;
use crate::rules::data::PluralRulesData;
use crate::rules::few_ranges::has_few_ranges;
use plural_reference::PluralOperands;
use plural_runtime::{Rule, test_rule};
use std::marker::Model;
use std::mem;

/// The rules of one language and type (UTS 35 Part 3, Language Plural Rules), which choose a
/// number's category: the first of zero, one, two, few and many whose rule is present and true,
/// else other.
///
/// <!-- snippet crates/example_calls/src/texts.rt: fn czech; "let czech" to "let czech" of fn show_czech; body of fn print_czech -->
/// ```
/// fn czech(alloc: Global) -> anyhow::Result<PluralRules<'static>> {
///     let one = Some("i = 1 and v = 0 @integer 1");
///     let few = Some("i = 2..4 and v = 0 @integer 2~4");
///     let many = Some("v != 0 @decimal 0.0~1.5, 10.0, 100.0, …");
///     let data = PluralRulesData::from_texts(alloc, None, one, None, few, many)?;
///     Ok(PluralRules::from_data(data))
/// }
///
/// let czech = czech(alloc)?;
///
/// for number in [1u32, 3, 5] {
///     let category = czech.category_for(PluralOperands::from(number));
///     println!(rt; "{number}: {category:?}")?;
/// }
/// ```
///
/// This prints
///
/// <!-- snippet crates/example_calls/stdout: section texts -->
/// ```text
/// 1: One
/// 3: Few
/// 5: Other
/// ```
#[derive(Debug)]
pub struct PluralRules<'data> {
    pub(crate) data: PluralRulesData<'data>,
}

// Written out, so that each end of a value is one call, and of borrowed rules none.
impl Drop for PluralRules<'_> {
    #[inline(always)]
    fn drop(self) {
        let PluralRules { data: _ } = self;
    }
}

impl<'data> Model for PluralRules<'data> {
    ghost use Rattle.plural_base.specs.FiveRules.{FiveRules};

    ghost Value = { FiveRules };

    ghost use Rattle.plural_base.specs.FiveRules.{rules_of};

    ghost view = { λ rules. rules_of rules.data };
}

impl<'data> PluralRules<'data> {
    ghost use Rattle.plural_base.specs.FiveRules.{rules_of};

    /// Returns the rules of this data.
    #[inline]
    pub fn from_data(rules: PluralRulesData<'data>) -> PluralRules<'data>
        ensures { result ≡ rules_of rules.entry }
    {
        PluralRules { data: rules }
    }

    /// Returns the same rules, borrowed from these.
    pub fn as_borrowed(&self) -> PluralRules<'_>
        ensures { result ≡ self.now }
    {
        PluralRules {
            data: self.data.as_borrowed(),
        }
    }

    // The rules, in whose place are none.
    pub(crate) fn taken(&mut self) -> PluralRules<'data>
        ensures { result ≡ self.old }
    {
        mem::replace(
            self,
            PluralRules {
                data: PluralRulesData::default(),
            },
        )
    }

    /// The category of a number by its operands. It allocates nothing.
    ///
    /// <!-- snippet crates/example_calls/src/calls/rules.rt: fn by_three; "let rules" to "let rules" of fn show_by_three; body of fn print_integers -->
    /// ```
    /// fn by_three(alloc: Global) -> anyhow::Result<PluralRules<'static>> {
    ///     let data = PluralRulesData::from_texts(alloc, None, Some("i % 3 = 2"), None, None, None)?;
    ///     Ok(PluralRules::from_data(data))
    /// }
    ///
    /// let rules = by_three(alloc)?;
    ///
    /// for number in [5u64, 6, 2_000_000_000_000_000_000] {
    ///     let category = rules.category_for(PluralOperands::from(number));
    ///     println!(rt; "{number}: {category:?}")?;
    /// }
    /// ```
    ///
    /// This prints
    ///
    /// <!-- snippet crates/example_calls/stdout: section category_for -->
    /// ```text
    /// 5: One
    /// 6: Other
    /// 2000000000000000000: One
    /// ```
    // Inlined with the two below, the operands of an integer stay constants: a sixth of the
    // instructions less.
    #[inline(always)]
    pub fn category_for(&self, operands: PluralOperands) -> PluralCategory
        ensures first { result ≡ first_category (packed_truth operands) self.now }
        ensures member { Contains (categories_of self.now) result }
    {
        self.first_true(&operands)
    }

    // The first category whose rule is present and true, else other.
    #[inline(always)]
    fn first_true(&self, operands: &PluralOperands) -> PluralCategory
        ensures { result ≡ first_category (packed_truth operands.now) self.now }
    {
        for_five!(self.data, |rule, category| {
            if is_true_of(rule, operands) {
                return category;
            }
        });
        PluralCategory::Other
    }

    /// Returns the categories that a number may have: those whose rule is present, from zero to
    /// many, then other.
    ///
    /// <!-- snippet crates/tests_libraries/src/tests/plural_base_rules.rt:
    ///      example body of fn categories_are_those_with_a_rule_and_other -->
    /// ```
    /// let (zero, few) = (Some("i = 0"), Some("n = 0"));
    /// let data = PluralRulesData::from_texts(alloc, zero, None, None, few, None)?;
    /// let mut categories = PluralRules::from_data(data).categories();
    /// assert!(rt; categories.size_hint() == (3, Some(3)));
    /// assert!(rt; categories.next() == Some(PluralCategory::Zero));
    /// assert!(rt; categories.next() == Some(PluralCategory::Few));
    /// assert!(rt; categories.len() == 1);
    /// assert!(rt; categories.next() == Some(PluralCategory::Other));
    /// assert!(rt; categories.next() == None);
    /// ```
    pub fn categories(&self) -> Categories
        ensures there { result ≡ categories_of self.now }
        ensures last { (front : List PluralCategory) × (result ≡ front ++ Other ∷ []) }
    {
        Categories::of(&self.data)
    }

    /// Returns whether the rules have few ranges, at most 64 with their relations in all five, so
    /// that [`PreparedRules::from_rules`] costs less than some hundred calls of
    /// [`PluralRules::category_for`]. Those of a language of CLDR 41 have at most 35. No relation
    /// is read behind the one that makes them too many.
    ///
    /// [`PreparedRules::from_rules`]: crate::PreparedRules::from_rules
    pub fn has_few_ranges(&self) -> bool
        ensures { IsTrue result ↔ HaveFewRanges self.now }
    {
        has_few_ranges(&self.data)
    }
}

// Whether a rule is present and true.
#[inline(always)]
fn is_true_of(rule: &Option<Rule<'_>>, operands: &PluralOperands) -> bool
    ensures { result ≡ passes (packed_truth operands.now) rule.now }
{
    match rule {
        Some(rule) => test_rule(rule, operands),
        None => false,
    }
}
