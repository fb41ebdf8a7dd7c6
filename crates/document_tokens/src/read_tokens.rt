//! The tokens of a JSON text, read once.

ghost use Rattle.std.specs.Prelude.{◌≡◌, ◌==◌, ◌<◌, ◌++◌, [], ◌∷◌, Err, IfOk, OnOk, length, map, if◌then◌else◌};
ghost use Rattle.document_tokens.specs.HeldTokens.{held_token};
ghost use Rattle.document_tokens.specs.TextTokens.{GivesHeldTokens, given_names, is_held_name, is_among_names, key_names_view};
ghost use Rattle.document_tokens.specs.Inner.HeldParts.{AreHeld, AreNoTokens, is_held_after};

use crate::error::JsonTextError;
use crate::held_token::HeldToken;
use crate::token_place::TokenPlace;
use json::{Reader, Scratch};
use std::alloc::{AllocError, Global};

/// Returns the tokens of the value that a JSON text writes, and of an object only those of the
/// members with these names, if any are given, as often as they stand there. The others are read too.
/// Some texts are held in `scratch`. It allocates.
///
/// The errors: [`JsonTextError::Json`] if it isn't a JSON text, as `serde_json` reads it;
/// [`JsonTextError::Memory`] if memory ran out, which it doesn't for no bytes.
pub fn text_tokens<'a>(
    alloc: Global,
    names: Option<&[&str]>,
    text: &'a str,
    scratch: &'a mut Scratch,
) -> Result<Vec<HeldToken<'a>>, JsonTextError>
    ensures { GivesHeldTokens (given_names names.entry) text.now result }
{
    match Reader::new(text, scratch) {
        Ok(mut reader) => read_tokens(alloc, names, &mut reader),
        Err(_) => Err(JsonTextError::Memory),
    }
}

// What is held of the tokens of a value with nothing after it.
fn read_tokens<'a>(
    alloc: Global,
    names: Option<&[&str]>,
    reader: &mut Reader<'a>,
) -> Result<Vec<HeldToken<'a>>, JsonTextError>
    ensures ok { IfOk result (λ tokens. AreHeld (is_held_name (given_names names.entry)) reader.old (map held_token tokens.items)) }
    ensures json { result ≡ Err JsonTextError.Json → AreNoTokens reader.old }
    ensures memory { result ≡ Err JsonTextError.Memory → 0 < length reader.old }
{
    let mut tokens = Vec::new(alloc);
    let mut place = TokenPlace::start();
    let mut is_held = true;
    while let Some(token) = reader.next() {
        let depth = place.depth();
        let Some(held) = HeldToken::of(token, &mut place) else {
            return Err(JsonTextError::Json);
        };
        is_held = is_held_after(depth, is_held, names, held);
        if hold(is_held, held, &mut tokens).is_err() {
            return Err(JsonTextError::Memory);
        }
    }
    if place.is_end() {
        Ok(tokens)
    } else {
        Err(JsonTextError::Json)
    }
}

// Adds a token if it is held.
#[inline(always)]
fn hold<'a>(
    is_held: bool,
    held: HeldToken<'a>,
    tokens: &mut Vec<HeldToken<'a>>,
) -> Result<(), AllocError>
    ensures { OnOk result (tokens.new.items ≡ (if is_held then tokens.old.items ++ held.entry ∷ [] else tokens.old.items)) }
{
    if is_held {
        tokens.push(held)?;
    }
    Ok(())
}

// Whether a token is held, and what comes after it, up to the next token that tells: in the
// outermost object, where as many are open, a key, and its end.
#[inline(always)]
fn is_held_after(depth: u32, is_held: bool, names: Option<&[&str]>, held: HeldToken<'_>) -> bool
    ensures { result ≡ is_held_after (is_held_name (given_names names.entry)) (depth == 1) (held_token held.entry) is_held }
{
    if depth != 1 {
        return is_held;
    }
    match held {
        HeldToken::Key(name) => is_held_name(names, name),
        HeldToken::EndObject => true,
        _ => is_held,
    }
}

// Whether the member with a key is held.
fn is_held_name(names: Option<&[&str]>, key: &str) -> bool
    ensures { result ≡ is_held_name (given_names names.entry) key.now }
{
    match names {
        Some(names) => is_named(names, key),
        None => true,
    }
}

// Whether a key is among the names.
fn is_named(names: &[&str], key: &str) -> bool
    ensures { result ≡ is_among_names (key_names_view names.now) key.now }
{
    let mut rest = names;
    while let [name, after @ ..] = rest {
        if key == *name {
            return true;
        }
        rest = after;
    }
    false
}
