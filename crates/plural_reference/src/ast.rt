//! The tree of a plural rule (UTS 35 Part 3, Plural Rules Syntax).
//!
//! Each list is a [`Sequence`] of its parts; the fields are public, so a tree can be made by hand:
//! `RangeList(items.into())` of a `Vec` of items.
//!
//! <!-- snippet crates/tests_libraries/src/tests/plural_reference_printing.rt:
//! example fn condition_of -->
//! ```
//! fn condition_of(alloc: Global, item: RangeListItem) -> anyhow::Result<Condition> {
//!     let relation = Relation {
//!         expression: Expression {
//!             operand: Operand::I,
//!             modulus: None,
//!         },
//!         operator: Operator::Eq,
//!         range_list: RangeList(vec![in alloc; item]?.into()),
//!     };
//!     let group = AndCondition(vec![in alloc; relation]?.into());
//!     Ok(Condition(vec![in alloc; group]?.into()))
//! }
//! ```

mod clones;

ghost use Rattle.std.specs.Prelude.{◌≡◌, ◌==◌, List, ℕ, Ok, Err, nat_le, if◌then◌else◌, string_bytes};
ghost use Rattle.plural_reference.specs.declared.error.ParseError.TheVariants.{ValueTooLarge};
ghost use Rattle.plural_reference.specs.Lexer.{max_number};
ghost use Rattle.std.specs.Cmp.Lexicographic.{pointwise};
ghost use Rattle.std.specs.Cmp.Rules.{comparing};
ghost use Rattle.std.proofs.Common.{rules};

use crate::error::ParseError;
pub use crate::sequence::Sequence;
pub use plural_operands::Operand;
use std::marker::Model;

/// A rule: `n = 1 @integer 1`.
#[derive(Debug, PartialEq, Drop)]
pub struct Rule {
    /// When the rule is true.
    pub condition: Condition,
    /// The samples after the condition, if there is a list of them.
    pub samples: Option<Samples>,
}

/// And-conditions joined by `or`: true if one of them is true, or if there is none.
#[derive(Debug, PartialEq, Drop)]
pub struct Condition(pub Sequence<AndCondition>);

/// Relations joined by `and`: true if all of them are.
#[derive(Debug, PartialEq, Drop)]
pub struct AndCondition(pub Sequence<Relation>);

/// An expression compared with ranges: `n % 10 = 3..4, 9`.
#[derive(Debug, PartialEq, Drop)]
pub struct Relation {
    /// The expression whose value is compared.
    pub expression: Expression,
    /// Whether its value has to be in the ranges.
    pub operator: Operator,
    /// The ranges.
    pub range_list: RangeList,
}

/// The operator of a relation.
#[derive(Clone, Copy, Debug, PartialEq)]
pub enum Operator {
    /// `=`: the value is in the ranges.
    Eq,
    /// `!=`: the value is in none of the ranges.
    NotEq,
}

impl Operator {
    ghost use Rattle.plural_reference.specs.Serializer.{operator_text};

    /// Returns the sign as it is written: `=` or `!=`.
    #[inline]
    pub fn as_str(self) -> &'static str
        ensures { result.now ≡ operator_text self }
    {
        match self {
            Operator::Eq => "=",
            Operator::NotEq => "!=",
        }
    }
}

/// An operand, or its remainder: `n % 10`.
#[derive(Debug, PartialEq, Drop)]
pub struct Expression {
    /// The operand.
    pub operand: Operand,
    /// The divisor, if a remainder is compared.
    pub modulus: Option<Value>,
}

/// The ranges and values of a relation.
#[derive(Debug, PartialEq, Drop)]
pub struct RangeList(pub Sequence<RangeListItem>);

/// A range or a single value.
#[derive(Debug, PartialEq, Drop)]
pub enum RangeListItem {
    /// The values from the first to the second, both included; none if the first is above the
    /// second.
    Range(Value, Value),
    /// A single value.
    Value(Value),
}

/// A value of a relation. A text gives 0 to 4294967295; a tree that was made by hand may hold more.
///
/// <!-- snippet crates/tests_libraries/src/tests/plural_reference_trees.rt:
/// example "holds!(rt; Value::from" to "holds!(rt; u32::try_from(&Value(4294967296)" of fn turns_values_into_numbers -->
/// ```
/// assert!(rt; Value::from(4294967295) == Value(4294967295));
/// assert!(rt; u32::try_from(&Value(4294967295)) == Ok(4294967295));
/// assert!(rt; u32::try_from(&Value(4294967296)) == Err(ParseError::ValueTooLarge));
/// ```
#[derive(Debug, PartialEq, PartialOrd, Drop)]
pub struct Value(pub u64);

impl From<u32> for Value {
    ghost from_gives = { λ number value. value ≡ record { 0 = number } };

    fn from(number: u32) -> Self {
        Value(u64::from(number))
    }
}

impl TryFrom<&Value> for u32 {
    type Error = ParseError;

    // Exact: only a value above 4294967295 is refused.
    ghost try_from_gives = { λ value r. r ≡ (if nat_le value.now.0 max_number then Ok value.now.0 else Err ValueTooLarge) };

    fn try_from(value: &Value) -> Result<u32, ParseError> {
        u32::try_from(value.0).map_err(|_| ParseError::ValueTooLarge)
    }
}

/// The samples of a rule (UTS 35 Part 3, Samples): `@integer 1 @decimal 1.0~1.5, …`.
#[derive(Debug, PartialEq, Drop)]
pub struct Samples {
    /// The list after `@integer`.
    pub integer: Option<SampleList>,
    /// The list after `@decimal`.
    pub decimal: Option<SampleList>,
}

/// A list of samples: `0, 2~16, 100, …`.
#[derive(Debug, PartialEq, Drop)]
pub struct SampleList {
    /// Its ranges and single samples.
    pub sample_ranges: Sequence<SampleRange>,
    /// Whether `…` ends the list: more samples exist than it has.
    pub ellipsis: bool,
}

/// A sample, or the samples from one to another: `2~16`.
#[derive(Debug, PartialEq, Drop)]
pub struct SampleRange {
    /// The sample, or the first one.
    pub lower_val: DecimalValue,
    /// The last sample of a range.
    pub upper_val: Option<DecimalValue>,
}

/// The text of a sample, as `1.20` or `1c6`: its tokens joined, without spaces. Contracts see its
/// bytes.
#[derive(Debug, Drop)]
pub struct DecimalValue(pub String);

impl Model for DecimalValue {
    ghost Value = { List ℕ };

    ghost view = { λ d. string_bytes d.0 };
}

impl PartialEq for DecimalValue {
    ghost eq = { pointwise ◌==◌ };

    ghost laws = { Prim.search (comparing, rules) };

    fn eq(&self, other: &DecimalValue) -> bool {
        self.0.as_str() == other.0.as_str()
    }
}
