//! Types, traits, laws and functions at their paths in `icu_plurals`: one that isn't there isn't
//! found, so this isn't compiled.

pub use icu_plurals::laws::{
    elements_read_again, kept_element_is_exact, one_encoding_of_elements, one_list_of_tokens,
    packed_elements_answer, packed_values_again, rules_have_every_reading, texts_give_one_answer,
};
pub use icu_plurals::provider::{
    FourBitMetadata, PluralElementsPackedCow, PluralElementsPackedULE, PluralRanges,
    PluralRulesData, RawPluralCategory, UnvalidatedPluralRange, is_read_whole,
};
pub use icu_plurals::{
    AllCategories, AsPluralRules, Categories, CompactDecimal, DataError, Decimal, DecimalError,
    ElementsBytesError, ElementsPackError, Items, JsonError, JsonProvider, ListError,
    OperandsError, PackError, PackedList, PluralCategory, PluralElements, PluralOperands,
    PluralRuleType, PluralRules, PluralRulesOptions, PluralRulesWithRanges, PluralsProvider,
    RawPluralOperands, RoundingMode, RulesBytesError, RulesPackError, RulesTextError, Sequence,
    Sign, UnsignedDecimal, rule_from_json, rule_to_json,
};

/// Texts of rules and their trees.
pub mod texts {
    pub use icu_plurals::provider::rules::reference::ast::{
        AndCondition, Condition, DecimalValue, Expression, Operand, Operator, RangeList,
        RangeListItem, Relation, Rule, SampleList, SampleRange, Samples, Sequence, Value,
    };
    pub use icu_plurals::provider::rules::reference::{
        Lexer, LexerError, ParseError, ReadError, Token, parse, parse_condition, serialize,
        serialize_condition, serialize_decimal_value, serialize_sample_list,
        serialize_sample_range, serialize_samples, test_condition,
    };
}

/// Packed rules.
pub mod packed {
    pub use icu_plurals::provider::rules::runtime::ast::{
        AndOr, AndOrPolarityOperand, Operand, Polarity, RangeOrValue, Relation, RelationULE,
        Relations, Rule, RuleBytesError, RuleError,
    };
    pub use icu_plurals::provider::rules::runtime::{Steps, test_rule, test_rule_counted};
}

// Names a type that chooses categories.
fn choosing<R: AsPluralRules<'static>>() {}

// Names a type that has the rules of locales.
fn providing<P: PluralsProvider>() {}

#[test]
fn traits_stand_at_their_paths() {
    choosing::<PluralRules<'static>>();
    providing::<JsonProvider>();
}
