//! The tokens of a JSON text that are held.

ghost use Rattle.std.specs.Prelude.{◌≡◌, MatchOption, Some, None, if◌then◌else◌};
ghost use Rattle.json.specs.Reads.{token_of};
ghost use Rattle.document_tokens.specs.Inner.HeldParts.{IsHeldAt, IsUnfit};
ghost use Rattle.document_tokens.specs.HeldTokens.{held_token};

use crate::json_number::json_number;
use crate::token_place::TokenPlace;
use json::Token;
use serde_json::Number;

/// A token of a JSON text.
#[derive(Clone, Copy, Drop)]
pub enum HeldToken<'a> {
    /// `null`.
    Null,
    /// `true` or `false`.
    Bool(bool),
    /// The number that a number writes.
    Number(Number),
    /// A text, without its escapes.
    String(&'a str),
    /// The beginning of an array.
    BeginArray,
    /// The end of an array.
    EndArray,
    /// The beginning of an object.
    BeginObject,
    /// The key of a member of an object, without its escapes, before the member's value.
    Key(&'a str),
    /// The end of an object.
    EndObject,
}

impl<'a> HeldToken<'a> {
    // Goes on behind a token, and returns what is held of it, unless it may not come there, is a
    // number that is too large, or a fault.
    #[inline(always)]
    pub(crate) fn of(token: Token<'a>, place: &mut TokenPlace) -> Option<HeldToken<'a>>
        ensures { MatchOption result (IsUnfit place.old (token_of token.entry))
            (λ held. IsHeldAt place.old (token_of token.entry) place.new (held_token held)) }
    {
        match token {
            Token::BeginObject => held_if(place.begin(true), HeldToken::BeginObject),
            Token::BeginArray => held_if(place.begin(false), HeldToken::BeginArray),
            Token::EndObject => held_if(place.end(true), HeldToken::EndObject),
            Token::EndArray => held_if(place.end(false), HeldToken::EndArray),
            Token::Key(name) => held_if(place.pass_key(name), HeldToken::Key(name)),
            Token::String(text) => held_if(place.pass_scalar(), HeldToken::String(text)),
            Token::Number(text) => match json_number(text) {
                Some(number) => held_if(place.pass_scalar(), HeldToken::Number(number)),
                None => None,
            },
            Token::Bool(truth) => held_if(place.pass_scalar(), HeldToken::Bool(truth)),
            Token::Null => held_if(place.pass_scalar(), HeldToken::Null),
            Token::Bad => None,
        }
    }
}

// What is held of a token, if it may come.
#[inline(always)]
fn held_if<'a>(comes: bool, held: HeldToken<'a>) -> Option<HeldToken<'a>>
    ensures { result ≡ (if comes then Some held.entry else None) }
{
    if comes { Some(held) } else { None }
}
