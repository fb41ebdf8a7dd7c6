//! A text as tokens.

ghost use Rattle.std.specs.Prelude.{◌≡◌, ◌≤◌, ◌<◌, ◌+◌, ◌*◌, ◌-◌, ℕ, length, min};
ghost use Rattle.gettext_plural.specs.PluralTokens.{paired, after_blanks, behind_digits, front, is_blank, is_decimal_digit, is_end, literal_token, number_with, mark_front};

use crate::token::{Operator, Token};

// Returns whether a byte is a space or a tab.
#[inline]
pub(crate) fn is_blank(byte: u8) -> bool
    ensures { result ≡ is_blank byte }
{
    byte == b' ' || byte == b'\t'
}

// Returns whether a byte is a digit.
#[inline]
pub(crate) fn is_digit(byte: u8) -> bool
    ensures { result ≡ is_decimal_digit byte }
{
    b'0' <= byte && byte <= b'9'
}

// Returns what follows the blanks at the front.
pub(crate) fn after_blanks(text: &[u8]) -> &[u8]
    ensures rest { result.now ≡ after_blanks text.now }
    ensures shorter { length result.now ≤ length text.now }
{
    let mut rest = text;
    while let [next, after @ ..] = rest {
        if !is_blank(*next) {
            return rest;
        }
        rest = after;
    }
    rest
}

// Returns whether the expression ends here.
pub(crate) fn is_end(text: &[u8]) -> bool
    ensures { result ≡ is_end text.now }
{
    match text {
        [next, ..] => *next == b';' || *next == b'\n',
        [] => true,
    }
}

// Returns the token that begins with a byte, and what follows it.
pub(crate) fn token_at(first: u8, rest: &[u8]) -> (Token, &[u8])
    ensures token { result.0 ≡ (front first rest.now).0 }
    ensures behind { result.1.now ≡ (front first rest.now).1 }
    ensures shorter { length result.1.now ≤ length rest.now }
{
    match first {
        b'0'..=b'9' => number(first, rest),
        b'n' => (Token::N, rest),
        b'?' => (Token::Question, rest),
        b':' => (Token::Colon, rest),
        b'(' => (Token::Open, rest),
        b')' => (Token::Close, rest),
        b'+' => (Token::Joint(Operator::Plus), rest),
        b'-' => (Token::Joint(Operator::Minus), rest),
        b'*' => (Token::Joint(Operator::Times), rest),
        b'/' => (Token::Joint(Operator::Over), rest),
        b'%' => (Token::Joint(Operator::Remainder), rest),
        b'!' => before(b'=', Token::Joint(Operator::Unequal), Token::Not, rest),
        b'=' => before(b'=', Token::Joint(Operator::Equal), Token::Junk, rest),
        b'<' => before(
            b'=',
            Token::Joint(Operator::AtMost),
            Token::Joint(Operator::Below),
            rest,
        ),
        b'>' => before(
            b'=',
            Token::Joint(Operator::AtLeast),
            Token::Joint(Operator::Above),
            rest,
        ),
        b'&' => before(b'&', Token::Joint(Operator::And), Token::Junk, rest),
        b'|' => before(b'|', Token::Joint(Operator::Or), Token::Junk, rest),
        _ => (Token::Junk, rest),
    }
}

// Returns the longer token if the byte comes next, else the shorter one.
fn before(byte: u8, long: Token, short: Token, rest: &[u8]) -> (Token, &[u8])
    ensures token { result.0 ≡ (mark_front (paired byte long short) rest.now).0 }
    ensures behind { result.1.now ≡ (mark_front (paired byte long short) rest.now).1 }
    ensures shorter { length result.1.now ≤ length rest.now }
{
    match rest {
        [next, after @ ..] if *next == byte => (long, after),
        _ => (short, rest),
    }
}

// The least number that no token has: all numbers from it on are alike.
const TOO_LARGE: u64 = 4_294_967_296;

// Returns the number that begins with a digit, and what follows it.
fn number(first: u8, rest: &[u8]) -> (Token, &[u8])
    requires low { 48 ≤ first }
    requires high { first ≤ 57 }
    ensures token { result.0 ≡ literal_token (number_with (first - 48) rest.now) }
    ensures behind { result.1.now ≡ behind_digits rest.now }
    ensures shorter { length result.1.now ≤ length rest.now }
{
    let (value, after) = digits(u64::from(first - b'0'), rest);
    (number_token(value), after)
}

// Returns a number with the digits at the front behind its own, and what follows them.
pub(crate) fn digits(start: u64, text: &[u8]) -> (u64, &[u8])
    requires { start < 10 }
    ensures value { result.0 ≡ min (number_with start text.now) TOO_LARGE }
    ensures behind { result.1.now ≡ behind_digits text.now }
    ensures shorter { length result.1.now ≤ length text.now }
{
    let mut value = start;
    let mut rest = text;
    while let [digit, after @ ..] = rest {
        if !is_digit(*digit) {
            break;
        }
        value = with_digit(value, *digit - b'0');
        rest = after;
    }
    (value, rest)
}

// Returns a number with one more digit, up to the least that is too large.
#[inline]
fn with_digit(value: u64, digit: u8) -> u64
    requires { value ≤ TOO_LARGE }
    ensures { (n : ℕ) → value ≡ min n TOO_LARGE → result ≡ min (n * 10 + digit) TOO_LARGE }
{
    (value * 10 + u64::from(digit)).min(TOO_LARGE)
}

// Returns the token of a number.
#[tactic(auto, using(crate::proofs::TokenFronts::small_number, crate::proofs::TokenFronts::large_number))]
fn number_token(value: u64) -> Token
    ensures { (n : ℕ) → value ≡ min n TOO_LARGE → result ≡ literal_token n }
{
    if value < TOO_LARGE {
        Token::Number(value)
    } else {
        Token::Junk
    }
}
