//! Plural rules as text: tokens, the tree of a rule, reading, printing and truth.
#![tactic(auto)]

pub mod ast;
mod error;
pub mod laws;
mod lexer;
mod parser;
mod resolver;
mod sequence;
mod serializer;
mod token;

pub use error::{LexerError, ParseError, ReadError};
pub use lexer::Lexer;
pub use parser::sink::RelationSink;
pub use parser::{
    RuleFault, fault_of, is_read_whole, parse, parse_condition, parse_without_samples,
    read_relations,
};
pub use plural_operands::{
    KEPT_LIMIT, KEPT_PLACES, OperandsError, PluralOperands, RawPluralOperands,
};
pub use resolver::test_condition;
pub use sequence::Sequence;
pub use serializer::{
    serialize, serialize_condition, serialize_decimal_value, serialize_sample_list,
    serialize_sample_range, serialize_samples,
};
pub use token::Token;
