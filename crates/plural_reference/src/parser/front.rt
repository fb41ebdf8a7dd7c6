//! The token at the front of a text, told by its first bytes (UTS 35 Part 3, Plural Rules Syntax).

ghost use Rattle.std.specs.Prelude.{◌≡◌, ◌≢◌, ◌∷◌, Some, None, MatchOption};
ghost use Rattle.plural_reference.specs.declared.error.ParseError.TheVariants.{ExpectedOperator, ExpectedValue};
ghost use Rattle.plural_reference.specs.declared.token.Token.TheVariants as token;
ghost use Rattle.plural_reference.specs.declared.token.Token.TheVariants.{DotDot, And, Or, Ellipsis};
ghost use Rattle.plural_reference.specs.Lexer.{first};
ghost use Rattle.plural_reference.specs.Parser.{operator_fault, token_value, value_fault};
ghost use Rattle.plural_reference.specs.Inner.Front.{BeginsAtToken, IsBehind};
ghost use Rattle.plural_reference.specs.Inner.Reader.{TakesValue};
ghost use Rattle.plural_reference.specs.Inner.Scan.{tokens_of};

use crate::ast::Operator;
use crate::lexer::{first_token, number, strip_byte};
use crate::token::Token;

// The bytes after the spaces at the front.
#[inline]
#[tactic(auto, unfolding(crate::specs::Inner::Scan::tokens_from))]
pub(super) fn behind_spaces(text: &[u8]) -> &[u8]
    ensures tokens { tokens_of result.now ≡ tokens_of text.now }
    ensures no_space { BeginsAtToken result.now }
{
    let mut rest = text;
    'spaces: while let [next, after @ ..] = rest {
        if *next != b' ' {
            return rest;
        }
        rest = after;
    }
    rest
}

// The bytes after the token, if the text begins with it. Most tokens are told without being cut.
#[inline(always)]
pub(super) fn behind<'t>(text: &'t [u8], token: &Token) -> Option<&'t [u8]>
    requires { BeginsAtToken text.now }
    ensures { IsBehind text.now token.now result }
{
    match token {
        Token::Comma => strip_byte(text, b','),
        Token::Modulo => strip_byte(text, b'%'),
        Token::At => strip_byte(text, b'@'),
        Token::Tilde => strip_byte(text, b'~'),
        Token::DotDot => behind_dots(text),
        Token::And => behind_and(text),
        Token::Or => behind_or(text),
        Token::Ellipsis => behind_ellipsis(text),
        _ => behind_other(text, token),
    }
}

// The bytes after `..`.
#[inline]
#[tactic(auto, using(crate::proofs::tokens::FirstBytes::no_dots))]
fn behind_dots(text: &[u8]) -> Option<&[u8]>
    requires { BeginsAtToken text.now }
    ensures { IsBehind text.now DotDot result }
{
    let rest = strip_byte(text, b'.')?;
    strip_byte(rest, b'.')
}

// The bytes after `and`.
#[inline]
#[tactic(auto, using(crate::proofs::tokens::FirstBytes::and_bytes))]
fn behind_and(text: &[u8]) -> Option<&[u8]>
    requires { BeginsAtToken text.now }
    ensures { IsBehind text.now And result }
{
    let rest = strip_byte(text, b'a')?;
    let last = strip_byte(rest, b'n')?;
    strip_byte(last, b'd')
}

// The bytes after `or`.
#[inline]
#[tactic(auto, using(crate::proofs::tokens::FirstBytes::no_or))]
fn behind_or(text: &[u8]) -> Option<&[u8]>
    requires { BeginsAtToken text.now }
    ensures { IsBehind text.now Or result }
{
    let rest = strip_byte(text, b'o')?;
    strip_byte(rest, b'r')
}

// The bytes after an ellipsis.
#[inline]
#[tactic(auto, using(crate::proofs::tokens::FirstBytes::ellipsis_bytes))]
fn behind_ellipsis(text: &[u8]) -> Option<&[u8]>
    requires { BeginsAtToken text.now }
    ensures { IsBehind text.now Ellipsis result }
{
    let rest = strip_byte(text, 0xe2)?;
    let last = strip_byte(rest, 0x80)?;
    strip_byte(last, 0xa6)
}

// The bytes after any token, which is cut and compared.
#[tactic(auto, unfolding(crate::specs::Inner::Scan::tokens_from))]
fn behind_other<'t>(text: &'t [u8], token: &Token) -> Option<&'t [u8]>
    requires { BeginsAtToken text.now }
    ensures { IsBehind text.now token.now result }
{
    let (found, after) = first_token(text)?;
    if found == *token { Some(after) } else { None }
}

// The number that the first token is, and the bytes after it.
#[inline]
#[tactic(auto, unfolding(crate::specs::Inner::Scan::tokens_from))]
pub(super) fn number_at(text: &[u8]) -> Option<(u32, &[u8])>
    requires { BeginsAtToken text.now }
    ensures { MatchOption result
        (value_fault (first (tokens_of text.now)) ≡ Some ExpectedValue)
        (λ it. TakesValue (tokens_of text.now) (record { 0 = it.0 }) (tokens_of it.1.now)) }
{
    let [digit, rest @ ..] = text else {
        return None;
    };
    if *digit == b'0' {
        return Some((0, rest));
    }
    if !digit.is_ascii_digit() {
        return None;
    }
    let (token, after) = number(*digit, rest);
    Some((number_of(&token)?, after))
}

// The number that a token is.
#[inline]
fn number_of(token: &Token) -> Option<u32>
    ensures { MatchOption result (token_value token.now ≡ None) (λ n. token_value token.now ≡ Some (record { 0 = n })) }
{
    match token {
        Token::Number(number) => Some(*number),
        Token::Zero => Some(0),
        _ => None,
    }
}

// The operator that the first token is, and the bytes after it.
#[inline]
#[tactic(auto, using(crate::proofs::tokens::FirstBytes::operator_bytes))]
pub(super) fn operator_at(text: &[u8]) -> Option<(Operator, &[u8])>
    requires { BeginsAtToken text.now }
    ensures { MatchOption result
        (operator_fault (first (tokens_of text.now)) ≡ Some ExpectedOperator)
        (λ it. tokens_of text.now ≡ token.Operator it.0 ∷ tokens_of it.1.now) }
{
    if let Some(after) = strip_byte(text, b'=') {
        return Some((Operator::Eq, after));
    }
    let rest = strip_byte(text, b'!')?;
    let after = strip_byte(rest, b'=')?;
    Some((Operator::NotEq, after))
}
