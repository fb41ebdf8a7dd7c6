//! Whether the lists of samples of a text are in order.

ghost use Rattle.std.specs.Prelude.{◌≡◌, ◌∷◌, [], IfOk, MatchBool, MatchOption, filter};
ghost use Rattle.plural_checker.specs.TextChecks.{HasOrder, IsOutOfOrder, are_in_order, is_list_type};

use icu_plurals::laws::one_list_of_tokens;
use icu_plurals::provider::rules::reference::{Lexer, Token, is_read_whole};
use std::alloc::{AllocError, Global};

// Whether a text is a rule as a whole, whose lists of samples are out of order.
pub(crate) fn is_out_of_order(alloc: Global, text: &str) -> Result<bool, AllocError>
    ensures { IfOk result (λ other. MatchBool other (IsOutOfOrder text.now) (¬ (IsOutOfOrder text.now))) }
{
    one_list_of_tokens();
    if has_order(text) {
        return Ok(false);
    }
    is_read_whole(alloc, text.as_bytes())
}

// Whether the lists of samples that a text names are in order.
fn has_order(text: &str) -> bool
    ensures { HasOrder text.now result }
{
    are_in_order(Lexer::new(text.as_bytes()))
}

// Whether the types of lists among these tokens are in order.
fn are_in_order(mut tokens: Lexer<'_>) -> bool
    ensures { result ≡ are_in_order (filter is_list_type tokens.entry) }
{
    let Some(first) = next_type(&mut tokens) else {
        return true;
    };
    let Some(second) = next_type(&mut tokens) else {
        return true;
    };
    first == Token::Integer && second == Token::Decimal && next_type(&mut tokens).is_none()
}

// Takes tokens up to the next type of a list, and returns it.
fn next_type(tokens: &mut Lexer<'_>) -> Option<Token>
    ensures { MatchOption result
        (filter is_list_type tokens.old ≡ [])
        (λ type. filter is_list_type tokens.old ≡ type ∷ filter is_list_type tokens.new) }
{
    while let Some(token) = tokens.next() {
        if is_list_type(&token) {
            return Some(token);
        }
    }
    None
}

// Whether a token names a type of lists.
fn is_list_type(token: &Token) -> bool
    ensures { result ≡ is_list_type token.now }
{
    matches!(token, Token::Integer | Token::Decimal)
}
