//! Outlines of documents, beside their values.

use plural_documents::{
    JsonTextError, JsonTokens, Portion, Scratch, Sieve, json_outline, json_value,
};
use row_calls::call::Call;

/// Makes the call of a kind of this file. Returns whether there is such a kind.
pub fn make(kind: &str, call: &mut Call) -> bool {
    match kind {
        "outline" => outline(call),
        "outlines" => outlines(call),
        "held_members" => held_members(call),
        "held_outlines" => held_outlines(call),
        _ => return false,
    }
    true
}

// The members with this key alone.
#[derive(Clone, Copy)]
struct Only<'a>(&'a str);

impl<'a> Sieve for Only<'a> {
    ghost use Rattle.std.specs.Prelude.{bytes_eq, if◌then◌else◌};
    ghost use Rattle.plural_documents.specs.declared.Portion.TheVariants as kept;

    ghost keeps = { λ only key. if bytes_eq key only.0.now then kept.Whole else kept.Nothing };

    fn kept(&self, key: &str) -> Portion<Only<'a>> {
        if key == self.0 {
            Portion::Whole
        } else {
            Portion::Nothing
        }
    }
}

// All members.
#[derive(Clone, Copy)]
struct Any;

impl Sieve for Any {
    ghost use Rattle.plural_documents.specs.declared.Portion.TheVariants as kept;

    ghost keeps = { λ any key. kept.Whole };

    fn kept(&self, _key: &str) -> Portion<Any> {
        Portion::Whole
    }
}

// The outline of a text by a key.
fn outline(call: &mut Call) {
    let (key, text) = (call.text(), call.text());
    let text = text.as_bytes();
    match json_outline(call.alloc, Only(key.as_str()), text) {
        Ok(outline) => call.print_json(&outline),
        Err(JsonTextError::Json) => print_refusal(call, text),
        Err(_) => call.out_of_memory(),
    }
}

// Prints that a text is no JSON, if no value is read from it either.
fn print_refusal(call: &mut Call, text: &[u8]) {
    match json_value(call.alloc, text) {
        Ok(_) => call.print("a value"),
        Err(JsonTextError::Json) => call.print("no JSON"),
        Err(_) => call.out_of_memory(),
    }
}

// The outlines, by each of the keys, of the tokens of a text.
fn outlines(call: &mut Call) {
    let (text, keys) = (call.text(), call.texts());
    let mut scratch = Scratch::new(call.alloc);
    match JsonTokens::read(call.alloc, text.as_bytes(), &mut scratch) {
        Ok(tokens) => print_outlines(call, &tokens, keys.as_slice()),
        Err(error) => call.refused("JSON", &error),
    }
}

// Prints the outlines of tokens, by each of the keys.
fn print_outlines(call: &mut Call, tokens: &JsonTokens<'_>, keys: &[String]) {
    for key in keys {
        call.separate(" | ");
        print_outline(call, tokens, Only(key.as_str()));
    }
}

// Prints the outline of tokens by what is kept.
fn print_outline<S: Sieve>(call: &mut Call, tokens: &JsonTokens<'_>, sieve: S) {
    match tokens.outline(call.alloc, sieve) {
        Ok(outline) => call.print_json(&outline),
        Err(_) => call.out_of_memory(),
    }
}

// What is held of a text by two names.
fn held_members(call: &mut Call) {
    let (first, second, text) = (call.text(), call.text(), call.text());
    let names = [first.as_str(), second.as_str()];
    let mut scratch = Scratch::new(call.alloc);
    match JsonTokens::read_members(call.alloc, &names, text.as_bytes(), &mut scratch) {
        Ok(held) => print_outline(call, &held, Any),
        Err(JsonTextError::Json) => print_refusal(call, text.as_bytes()),
        Err(_) => call.out_of_memory(),
    }
}

// The outlines, by each of the keys, of what is held of a text by two names.
fn held_outlines(call: &mut Call) {
    let (first, second, text) = (call.text(), call.text(), call.text());
    let keys = call.texts();
    let names = [first.as_str(), second.as_str()];
    let mut scratch = Scratch::new(call.alloc);
    match JsonTokens::read_members(call.alloc, &names, text.as_bytes(), &mut scratch) {
        Ok(held) => print_outlines(call, &held, keys.as_slice()),
        Err(error) => call.refused("JSON", &error),
    }
}
