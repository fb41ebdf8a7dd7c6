//! Why a text isn't read.

ghost use Rattle.std.specs.Prelude.{◌≡◌, Some};
ghost use Rattle.plural_reference.specs.PluralReferenceErrors.{parse_error_text, read_error_text, lexer_error_text};
ghost use Rattle.plural_reference.specs.declared.error.ReadError.TheVariants.{Memory, Parse};

use std::alloc::{AllocError, AllocFailed};
use std::error::Error;
use std::fmt;

/// Why a text isn't a rule: what is expected at the first place where the text doesn't continue as
/// a rule (UTS 35 Part 3, Plural Rules Syntax).
#[derive(Clone, Copy, Debug, PartialEq, Eq)]
pub enum ParseError {
    /// An and-condition after `or`, if the text or the condition ends.
    ExpectedAndCondition,
    /// A relation after `and`, if the text or the condition ends.
    ExpectedRelation,
    /// `=` or `!=` after an operand or a modulus.
    ExpectedOperator,
    /// An operand at the start, after `or` or after `and`, if there is another token.
    ExpectedOperand,
    /// A number: of a modulus, of a range, or of a sample or its exponent.
    ExpectedValue,
    /// `integer` or `decimal` after `@`.
    ExpectedSampleType,
    /// A value above 4294967295. No text gives it, since the lexer takes such a number for
    /// [`Token::Junk`](crate::Token::Junk): only a tree that was made by hand has one.
    ValueTooLarge,
}

impl fmt::Display for ParseError {
    ghost output = { λ e. Some (parse_error_text e) };

    fn fmt<W: fmt::Write>(&self, f: &mut fmt::Formatter<W>) -> fmt::Result {
        f.write_str(match self {
            ParseError::ExpectedAndCondition => "expected 'AND' condition",
            ParseError::ExpectedRelation => "expected relation",
            ParseError::ExpectedOperator => "expected operator",
            ParseError::ExpectedOperand => "expected operand",
            ParseError::ExpectedValue => "expected value",
            ParseError::ExpectedSampleType => "expected sample type",
            ParseError::ValueTooLarge => "Value too large",
        })
    }
}

impl Error for ParseError {}

/// Why [`parse`](crate::parse), [`parse_without_samples`](crate::parse_without_samples) and
/// [`parse_condition`](crate::parse_condition) return no tree.
#[derive(Clone, Copy, Debug, PartialEq, Eq)]
pub enum ReadError {
    /// The text isn't a rule.
    Parse(ParseError),
    /// An allocation failed.
    Memory,
}

impl fmt::Display for ReadError {
    ghost output = { λ e. Some (read_error_text e) };

    fn fmt<W: fmt::Write>(&self, f: &mut fmt::Formatter<W>) -> fmt::Result {
        match self {
            ReadError::Parse(kind) => write!(f, "{kind}"),
            ReadError::Memory => f.write_str("out of memory"),
        }
    }
}

impl Error for ReadError {}

impl From<AllocError> for ReadError {
    ghost from_gives = { λ _ e. e ≡ Memory };

    fn from(_error: AllocError) -> Self {
        ReadError::Memory
    }
}

impl<T: Drop> From<AllocFailed<T>> for ReadError {
    ghost from_gives = { λ _ e. e ≡ Memory };

    fn from(_error: AllocFailed<T>) -> Self {
        ReadError::Memory
    }
}

impl From<ParseError> for ReadError {
    ghost from_gives = { λ kind e. e ≡ Parse kind };

    fn from(kind: ParseError) -> Self {
        ReadError::Parse(kind)
    }
}

/// Why a byte begins or continues no token. No public call returns it: the lexer gives
/// [`Token::Junk`](crate::Token::Junk) instead.
#[derive(Clone, Copy, Debug)]
pub enum LexerError {
    /// The byte that continues a begun keyword.
    ExpectedByte(u8),
    /// A byte that begins no token.
    UnknownToken(u8),
}

impl fmt::Display for LexerError {
    ghost output = { λ e. Some (lexer_error_text e) };

    fn fmt<W: fmt::Write>(&self, f: &mut fmt::Formatter<W>) -> fmt::Result {
        match self {
            LexerError::ExpectedByte(byte) => write!(f, "Expected byte: {byte}"),
            LexerError::UnknownToken(byte) => write!(f, "Unknown token: {byte}"),
        }
    }
}

impl Error for LexerError {}
