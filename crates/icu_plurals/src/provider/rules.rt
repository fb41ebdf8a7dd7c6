//! Plural rules in their two forms.

/// Rules as text and as a tree (UTS 35 Part 3, Plural Rules Syntax).
pub mod reference {
    pub use plural_reference::{
        Lexer, LexerError, ParseError, ReadError, Token, ast, is_read_whole, parse,
        parse_condition, serialize, serialize_condition, serialize_decimal_value,
        serialize_sample_list, serialize_sample_range, serialize_samples, test_condition,
    };
}

/// Rules as packed bytes.
pub mod runtime {
    pub use plural_runtime::{Steps, test_rule, test_rule_counted};

    /// The relations of packed rules.
    pub mod ast {
        pub use plural_runtime::{
            AndOr, AndOrPolarityOperand, Operand, Polarity, RangeOrValue, Relation, RelationULE,
            Relations, Rule, RuleBytesError, RuleError,
        };
    }
}
