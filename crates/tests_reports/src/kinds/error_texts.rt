//! The texts of errors.

use fixed_decimal::DecimalError;
use form_commands::{FormsError, NumberFault};
use message_format::{ArgumentFault, FormatError};
use packed_list::{ListError, PackError};
use plural_base::{
    DataError, ElementsPackError, JsonError, PluralCategory, RulesBytesError, RulesPackError,
};
use plural_fallback::FallbackError;
use plural_reference::{LexerError, OperandsError, ParseError, ReadError};
use plural_runtime::{RuleBytesError, RuleError};
use row_calls::call::Call;
use std::fmt::{Debug, Display, Write};

const DECIMALS: [DecimalError; 3] = [
    DecimalError::Syntax,
    DecimalError::Limit,
    DecimalError::Memory,
];

const LISTS: [ListError; 3] = [ListError::Header, ListError::ZeroCount, ListError::Start];

const PACKS: [PackError; 3] = [
    PackError::CountLimit,
    PackError::StartLimit,
    PackError::Memory,
];

const PARSES: [ParseError; 7] = [
    ParseError::ExpectedAndCondition,
    ParseError::ExpectedRelation,
    ParseError::ExpectedOperator,
    ParseError::ExpectedOperand,
    ParseError::ExpectedValue,
    ParseError::ExpectedSampleType,
    ParseError::ValueTooLarge,
];

const READS: [ReadError; 8] = [
    ReadError::Parse(ParseError::ExpectedAndCondition),
    ReadError::Parse(ParseError::ExpectedRelation),
    ReadError::Parse(ParseError::ExpectedOperator),
    ReadError::Parse(ParseError::ExpectedOperand),
    ReadError::Parse(ParseError::ExpectedValue),
    ReadError::Parse(ParseError::ExpectedSampleType),
    ReadError::Parse(ParseError::ValueTooLarge),
    ReadError::Memory,
];

const LEXERS: [LexerError; 2] = [LexerError::ExpectedByte(116), LexerError::UnknownToken(120)];

const OPERANDS: [OperandsError; 2] = [OperandsError::Empty, OperandsError::Invalid];

const RULE_BYTES: [RuleBytesError; 3] = [
    RuleBytesError::List(ListError::Header),
    RuleBytesError::ItemLength(3),
    RuleBytesError::Operand(0),
];

const RULES: [RuleError; 3] = [
    RuleError::Parse(ParseError::ExpectedOperator),
    RuleError::StartLimit,
    RuleError::Memory,
];

const JSON: [JsonError; 10] = [
    JsonError::Float,
    JsonError::Shape,
    JsonError::Rule(
        Some(PluralCategory::One),
        RuleError::Parse(ParseError::ExpectedOperator),
    ),
    JsonError::Rule(Some(PluralCategory::Few), RuleError::StartLimit),
    JsonError::Rule(None, RuleError::Parse(ParseError::ExpectedSampleType)),
    JsonError::RangeKey,
    JsonError::RangeValue,
    JsonError::Pack(ElementsPackError::DefaultLimit),
    JsonError::Pack(ElementsPackError::StartLimit),
    JsonError::Memory,
];

const LANGUAGE_BYTES: [RulesBytesError; 4] = [
    RulesBytesError::List(ListError::Start),
    RulesBytesError::ItemEmpty(3),
    RulesBytesError::Key(1),
    RulesBytesError::Rule(2, RuleBytesError::Operand(4)),
];

const LANGUAGES: [RulesPackError; 2] = [RulesPackError::StartLimit, RulesPackError::Memory];

const FORMATS: [FormatError<'static>; 6] = [
    FormatError::Argument(ArgumentFault::Missing, b"n"),
    FormatError::Argument(ArgumentFault::WrongKind, b"n"),
    FormatError::Argument(ArgumentFault::NotANumber, b"n"),
    FormatError::Argument(ArgumentFault::OverLimit, b"n"),
    FormatError::Argument(ArgumentFault::CompactOffset, b"n"),
    FormatError::Memory,
];

const FALLBACKS: [FallbackError; 3] = [
    FallbackError::NotFound,
    FallbackError::LongChain,
    FallbackError::NotLoaded,
];

const NUMBERS: [NumberFault; 4] = [
    NumberFault::TooLong,
    NumberFault::NotText,
    NumberFault::Syntax,
    NumberFault::Limit,
];

// Those whose values can be written here.
const FORMS: [FormsError; 7] = [
    FormsError::Rules,
    FormsError::TooLong,
    FormsError::Json,
    FormsError::Refused(JsonError::Shape),
    FormsError::Numbers,
    FormsError::Write,
    FormsError::Memory,
];

/// Makes the call of a kind of this file. Returns whether there is such a kind.
pub fn make(kind: &str, call: &mut Call) -> bool {
    match kind {
        "error_texts" => error_texts(call),
        "forms_errors" => forms_errors(call),
        _ => return false,
    }
    true
}

// The texts of the errors of a type.
fn error_texts(call: &mut Call) {
    let name = call.text();
    if !prints_of_texts(call, name.as_str())
        && !prints_of_packed(call, name.as_str())
        && !prints_of_forms(call, name.as_str())
    {
        call.not("a type of errors");
    }
}

// Prints the errors of a type, if it is one of numbers and texts.
fn prints_of_texts(call: &mut Call, name: &str) -> bool {
    match name {
        "DecimalError" => print_each(call, &DECIMALS),
        "ParseError" => print_each(call, &PARSES),
        "ReadError" => print_each(call, &READS),
        "LexerError" => print_each(call, &LEXERS),
        "OperandsError" => print_each(call, &OPERANDS),
        _ => return false,
    }
    true
}

// Prints the errors of a type, if it is one of packed rules, elements, documents and patterns.
fn prints_of_packed(call: &mut Call, name: &str) -> bool {
    match name {
        "ListError" => print_each(call, &LISTS),
        "PackError" => print_each(call, &PACKS),
        "RuleBytesError" => print_each(call, &RULE_BYTES),
        "RuleError" => print_each(call, &RULES),
        "JsonError" => print_each(call, &JSON),
        "ElementsPackError" => print_each(call, &[ElementsPackError::Memory]),
        "RulesBytesError" => print_each(call, &LANGUAGE_BYTES),
        "RulesPackError" => print_each(call, &LANGUAGES),
        "DataError" => print_each(call, &[DataError::NotFound]),
        "FormatError" => print_each(call, &FORMATS),
        _ => return false,
    }
    true
}

// Prints the errors of a type, if it is one of locales and forms.
fn prints_of_forms(call: &mut Call, name: &str) -> bool {
    match name {
        "FallbackError" => print_each(call, &FALLBACKS),
        "NumberFault" => print_each(call, &NUMBERS),
        "FormsError" => print_each(call, &FORMS),
        _ => return false,
    }
    true
}

// Prints each error's name and its text.
fn print_each<E: Debug + Display>(call: &mut Call, errors: &[E]) {
    for error in errors {
        call.separate(" | ");
        let _ = write!(call, "{error:?}: {error}");
    }
}

// Prints each error of forms, whether the rules are at fault, and the exit status.
fn forms_errors(call: &mut Call) {
    for error in &FORMS {
        call.separate(" | ");
        let _ = write!(call, "{error:?} ");
        call.print_truth(error.is_of_rules());
        let _ = write!(call, " {}", error.status());
    }
}
