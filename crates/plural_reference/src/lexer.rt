//! A text as tokens (UTS 35 Part 3, Plural Rules Syntax).

ghost use Rattle.std.specs.Prelude.{◌≡◌, ◌≢◌, ◌≤◌, ◌+◌, ◌*◌, ◌∷◌, [], ℕ, Some, length, min, IfSome, MatchOption};
ghost use Rattle.plural_reference.specs.Lexer.{first, AreTokensOf, blank};
ghost use Rattle.std.specs.Iterator.{YieldsFirst, item_count};
ghost use Rattle.plural_reference.specs.Inner.BehindFirst.{behind_first, behind_keyword};
ghost use Rattle.plural_reference.specs.Inner.Front.{BeginsAtToken};
ghost use Rattle.plural_reference.specs.Inner.Scan.{tokens_of, keyword_tokens, number_token};

use crate::ast;
use crate::token::Token;
use std::marker::Model;

/// The tokens of a text, one at a time: at most one for each byte, and after the last always
/// `None`. It allocates nothing, and refuses nothing: what isn't a piece of a rule is
/// [`Token::Junk`]. Contracts see the list of the remaining tokens.
///
/// <!-- snippet crates/tests_libraries/src/tests/plural_reference_examples.rt:
/// example "let mut lexer" to "holds!(rt; lexer.next() == None" of fn gives_no_token_behind_the_last -->
/// ```
/// let mut lexer = Lexer::new(b"i 1 ");
/// assert!(rt; lexer.next() == Some(Token::Operand(Operand::I)));
/// assert!(rt; lexer.next() == Some(Token::Number(1)));
/// assert!(rt; lexer.next() == None);
/// ```
#[derive(Debug, Drop)]
pub struct Lexer<'l> {
    rest: &'l [u8],
}

impl<'l> Model for Lexer<'l> {
    ghost use Rattle.std.specs.Prelude.{List};
    ghost use Rattle.plural_reference.specs.declared.token.Token.{Token};
    ghost use Rattle.plural_reference.specs.Inner.Scan.{tokens_of};

    ghost Value = { List Token };

    ghost view = { λ l. tokens_of l.rest.now };
}

impl<'l> Lexer<'l> {
    /// Returns the tokens of a text. Spaces give no token. A number takes all digits that follow,
    /// and is Junk above 4294967295; a keyword that breaks off is one Junk with the byte that
    /// doesn't fit.
    #[inline]
    pub fn new(text: &'l [u8]) -> Self
        ensures tokens { AreTokensOf text.now result }
        ensures at_most { length result ≤ length text.now }
    {
        Lexer { rest: text }
    }
}

impl<'l> Iterator for Lexer<'l> {
    type Item = Token;

    ghost next_gives = { YieldsFirst (λ l. l) };

    ghost remaining = { item_count (λ l. l) };

    #[tactic(auto, unfolding(crate::specs::Inner::Scan::tokens_from))]
    fn next(&mut self) -> Option<Token> {
        while let [first, rest @ ..] = self.rest {
            if *first != b' ' {
                let (token, after) = token_at(*first, rest);
                self.rest = behind_space(after);
                return Some(token);
            }
            self.rest = rest;
        }
        None
    }
}

// The bytes after the space that mostly follows a token: so it isn't looked up in the table of
// pieces.
#[inline]
#[tactic(auto, unfolding(crate::specs::Inner::Scan::tokens_from))]
fn behind_space(text: &[u8]) -> &[u8]
    ensures { tokens_of result.now ≡ tokens_of text.now }
{
    match text {
        [next, after @ ..] if *next == b' ' => after,
        _ => text,
    }
}

// The first token of a text that doesn't begin with a space, and the bytes after it.
#[inline(always)]
#[tactic(auto, unfolding(crate::specs::Inner::Scan::tokens_from))]
pub(crate) fn first_token(text: &[u8]) -> Option<(Token, &[u8])>
    requires { BeginsAtToken text.now }
    ensures tokens { MatchOption result (tokens_of text.now ≡ []) (λ it. tokens_of text.now ≡ it.0 ∷ tokens_of it.1.now) }
    ensures behind { IfSome result (λ it. behind_first text.now ≡ it.1.now) }
{
    match text {
        [first, rest @ ..] => Some(token_at(*first, rest)),
        [] => None,
    }
}

// The token that the byte begins, and the bytes after it.
#[inline(always)]
#[tactic(auto, using(crate::proofs::tokens::Alone::alone), unfolding(crate::specs::Inner::Scan::tokens_from, crate::specs::Inner::BehindFirst::rest_from))]
fn token_at(first: u8, rest: &[u8]) -> (Token, &[u8])
    requires { first ≢ blank }
    ensures tokens { tokens_of (first ∷ rest.now) ≡ result.0 ∷ tokens_of result.1.now }
    ensures behind { behind_first (first ∷ rest.now) ≡ result.1.now }
{
    match first {
        b'n' => (Token::Operand(ast::Operand::N), rest),
        b'i' => match strip_byte(rest, b'n') {
            Some(after) => keyword(b"teger", Token::Integer, after),
            None => (Token::Operand(ast::Operand::I), rest),
        },
        b'f' => (Token::Operand(ast::Operand::F), rest),
        b't' => (Token::Operand(ast::Operand::T), rest),
        b'v' => (Token::Operand(ast::Operand::V), rest),
        b'w' => (Token::Operand(ast::Operand::W), rest),
        b'c' => (Token::Operand(ast::Operand::C), rest),
        b'e' => (Token::E, rest),
        b'=' => (Token::Operator(ast::Operator::Eq), rest),
        b'0' => (Token::Zero, rest),
        b'1'..=b'9' => number(first, rest),
        b'.' => match strip_byte(rest, b'.') {
            Some(after) => (Token::DotDot, after),
            None => (Token::Dot, rest),
        },
        b',' => (Token::Comma, rest),
        b'%' => (Token::Modulo, rest),
        b'@' => (Token::At, rest),
        b'~' => (Token::Tilde, rest),
        b'a' => keyword(b"nd", Token::And, rest),
        b'o' => keyword(b"r", Token::Or, rest),
        b'!' => keyword(b"=", Token::Operator(ast::Operator::NotEq), rest),
        b'd' => keyword(b"ecimal", Token::Decimal, rest),
        0xe2 => keyword(b"\x80\xa6", Token::Ellipsis, rest),
        _ => (Token::Junk, rest),
    }
}

// The bytes after the first, if that is the byte. (`strip_prefix` says so by a comparison of lists,
// which `token_at` would have to open for each of its bytes.)
#[inline]
pub(crate) fn strip_byte(text: &[u8], byte: u8) -> Option<&[u8]>
    ensures { MatchOption result (first text.now ≢ Some byte) (λ after. text.now ≡ byte ∷ after.now) }
{
    match text {
        [next, after @ ..] if *next == byte => Some(after),
        _ => None,
    }
}

// The token of a keyword, if these bytes of it are still expected, and the bytes after it.
#[tactic(auto, unfolding(crate::specs::Inner::Scan::tokens_from, crate::specs::Inner::BehindFirst::rest_from))]
fn keyword<'a>(expected: &[u8], token: Token, text: &'a [u8]) -> (Token, &'a [u8])
    ensures tokens { keyword_tokens expected.now token text.now ≡ result.0 ∷ tokens_of result.1.now }
    ensures behind { behind_keyword expected.now token text.now ≡ result.1.now }
{
    let mut rest = text;
    for byte in expected {
        let [next, after @ ..] = rest else {
            return (Token::Junk, rest);
        };
        if next != byte {
            return (Token::Junk, after);
        }
        rest = after;
    }
    (token, rest)
}

// The least number that no token can hold: all numbers from it on give the same token.
const TOO_LARGE: u64 = 4_294_967_296;

// The token of the number that begins with the digit, and the bytes after it.
#[tactic(auto, unfolding(crate::specs::Inner::Scan::tokens_from))]
pub(crate) fn number(first: u8, text: &[u8]) -> (Token, &[u8])
    requires low { 49 ≤ first }
    requires high { first ≤ 57 }
    ensures tokens { tokens_of (first ∷ text.now) ≡ result.0 ∷ tokens_of result.1.now }
    ensures behind { behind_first (first ∷ text.now) ≡ result.1.now }
{
    let mut value = u64::from(first - b'0');
    let mut rest = text;
    while let [digit, after @ ..] = rest {
        if !digit.is_ascii_digit() {
            break;
        }
        value = pushed(value, *digit - b'0');
        rest = after;
    }
    (number_token(value), rest)
}

// A number with one more digit, up to the least that is too large.
#[inline]
fn pushed(value: u64, digit: u8) -> u64
    requires { value ≤ TOO_LARGE }
    ensures { (n : ℕ) → value ≡ min n TOO_LARGE → result ≡ min (n * 10 + digit) TOO_LARGE }
{
    (value * 10 + u64::from(digit)).min(TOO_LARGE)
}

// The token of a number that was read so far.
#[inline]
#[tactic(auto, using(crate::proofs::tokens::LargeNumbers::small_number, crate::proofs::tokens::LargeNumbers::large_number))]
fn number_token(value: u64) -> Token
    ensures { (n : ℕ) → value ≡ min n TOO_LARGE → result ≡ number_token n }
{
    if value < TOO_LARGE {
        Token::Number(value as u32)
    } else {
        Token::Junk
    }
}
