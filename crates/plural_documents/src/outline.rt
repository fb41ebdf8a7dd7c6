//! The outline of a JSON value: what is kept of it.

ghost use Rattle.std.specs.Prelude.{◌≡◌, [], ◌∷◌, ◌++◌, ◌≤◌, IfOk, OnOk, false, length};
ghost use Rattle.document_tokens.specs.HeldTokens.{held_token};
ghost use Rattle.plural_documents.specs.Inner.OutlineSteps.{AddsItem, AreItems, AreOutlined, IsOneToken, IsOutlined, KeepsPart, opens, portion_below, portion_by};
ghost use Rattle.plural_documents.specs.Outlines.{GivesOutline, IsOutlineOf};
ghost use Rattle.serde_json.specs.Data.{put};
ghost use Rattle.serde_json.specs.View.{items_view, members_view, view};

use crate::json_tokens::JsonTokens;
use crate::tokens_left::TokensLeft;
use document_tokens::{HeldToken, JsonTextError};
use json::Scratch;
use serde_json::{Map, Value};
use std::alloc::{AllocError, Global};

/// How much is kept of a value.
#[derive(Clone, Copy, Debug)]
pub enum Portion<S> {
    /// All of it.
    Whole,
    /// Nothing.
    Nothing,
    /// Of an object what this sieve keeps of its members; of any other value all of it.
    Members(S),
}

/// A sieve for the members of an object, which goes by their keys.
pub trait Sieve: Copy {
    ghost use Rattle.std.specs.Prelude.{List, ℕ};
    ghost use Rattle.plural_documents.specs.declared.outline.Portion.{Portion as PortionOf};

    // How much is kept of the member with a key.
    ghost keeps: { Self → List ℕ → PortionOf Self };

    /// Returns how much is kept of the member with this key. It allocates nothing.
    fn kept(&self, key: &str) -> Portion<Self>
        ensures { result ≡ keeps self.now key.now };
}

/// Returns the outline of the JSON value that the bytes write: what the sieve keeps of what
/// [`json_value`](crate::json_value) returns, with the same errors. All of the text is read, and
/// only what is kept is built. It allocates.
pub fn json_outline<S: Sieve>(alloc: Global, sieve: S, bytes: &[u8]) -> Result<Value, JsonTextError>
    ensures { GivesOutline S.keeps sieve bytes.now result }
{
    let mut scratch = Scratch::new(alloc);
    let text = JsonTokens::read(alloc, bytes, &mut scratch)?;
    match text.outline(alloc, sieve) {
        Ok(value) => Ok(value),
        Err(_) => Err(JsonTextError::Memory),
    }
}

impl<'a> JsonTokens<'a> {
    /// Returns the outline of what is held of the value that the text writes. It allocates.
    pub fn outline<S: Sieve>(&self, alloc: Global, sieve: S) -> Result<Value, AllocError>
        ensures { IfOk result (λ value. IsOutlineOf S.keeps sieve self.now (view value)) }
    {
        let mut left = TokensLeft::of(self.tokens.as_slice());
        match left.next() {
            Some(first) => outlined(alloc, first, &mut left, Some(sieve)),
            None => Ok(Value::Null),
        }
    }
}

// The outline of the value that begins with this token, which is passed. Without a sieve it is kept
// whole.
#[cycle(build)]
fn outlined<S: Sieve>(
    alloc: Global,
    first: HeldToken<'_>,
    left: &mut TokensLeft<'_, '_>,
    sieve: Option<S>,
) -> Result<Value, AllocError>
    ensures outlined { IfOk result (λ value. IsOutlined S.keeps sieve (held_token first.entry ∷ left.old) (view value) left.new) }
    ensures shorter { OnOk result (length left.new ≤ length left.old) }
{
    match first {
        HeldToken::BeginArray => Ok(Value::Array(whole_items::<S>(alloc, left)?)),
        HeldToken::BeginObject => Ok(Value::Object(outlined_members(alloc, left, sieve)?)),
        _ => one_token::<S>(alloc, first),
    }
}

// The value that is one token.
#[inline]
fn one_token<S: Sieve>(alloc: Global, token: HeldToken<'_>) -> Result<Value, AllocError>
    ensures { IfOk result (λ value. opens (held_token token.entry) ≡ false → IsOneToken S.keeps (held_token token.entry) (view value)) }
{
    match token {
        HeldToken::Number(number) => Ok(Value::Number(number)),
        HeldToken::Bool(truth) => Ok(Value::Bool(truth)),
        HeldToken::String(words) => Ok(Value::String(String::from_str(alloc, words)?)),
        _ => Ok(Value::Null),
    }
}

// The items of an array, which is passed.
#[cycle(build)]
fn whole_items<S: Sieve>(
    alloc: Global,
    left: &mut TokensLeft<'_, '_>,
) -> Result<Vec<Value>, AllocError>
    ensures items { IfOk result (λ items. AreItems left.old (items_view items.items) left.new) }
    ensures shorter { OnOk result (length left.new ≤ length left.old) }
{
    let mut items = Vec::new(alloc);
    while let Some(first) = left.next() {
        match first {
            HeldToken::EndArray => break,
            _ => push_item::<S>(alloc, first, left, &mut items)?,
        }
    }
    Ok(items)
}

// Adds the item that begins with this token, and goes past it.
#[cycle(build)]
#[inline]
fn push_item<S: Sieve>(
    alloc: Global,
    first: HeldToken<'_>,
    left: &mut TokensLeft<'_, '_>,
    items: &mut Vec<Value>,
) -> Result<(), AllocError>
    ensures adds { OnOk result (AddsItem S.keeps (held_token first.entry ∷ left.old) items.old.items items.new.items left.new) }
    ensures shorter { OnOk result (length left.new ≤ length left.old) }
{
    match first {
        HeldToken::BeginArray | HeldToken::BeginObject => {
            push_value(outlined::<S>(alloc, first, left, None)?, items)
        }
        _ => push_value(one_token::<S>(alloc, first)?, items),
    }
}

// Adds a value.
#[inline]
fn push_value(value: Value, items: &mut Vec<Value>) -> Result<(), AllocError>
    ensures { OnOk result (items.new.items ≡ items.old.items ++ value ∷ []) }
{
    items.push(value)?;
    Ok(())
}

// What is kept of the members of an object, which is passed.
#[cycle(build)]
fn outlined_members<S: Sieve>(
    alloc: Global,
    left: &mut TokensLeft<'_, '_>,
    sieve: Option<S>,
) -> Result<Map<String, Value>, AllocError>
    ensures members { IfOk result (λ members. AreOutlined S.keeps sieve left.old (members_view members.entries) left.new) }
    ensures shorter { OnOk result (length left.new ≤ length left.old) }
{
    let mut members = Map::new(alloc);
    while let Some(first) = left.next() {
        let HeldToken::Key(key) = first else {
            break;
        };
        keep_member(alloc, key, left, sieve, &mut members)?;
    }
    Ok(members)
}

// Goes past the value of a key, and adds what is kept of it.
#[cycle(build)]
fn keep_member<S: Sieve>(
    alloc: Global,
    key: &str,
    left: &mut TokensLeft<'_, '_>,
    sieve: Option<S>,
    members: &mut Map<String, Value>,
) -> Result<(), AllocError>
    ensures keeps { OnOk result (KeepsPart S.keeps (portion_below S.keeps sieve key.now) key.now left.old
        (members_view members.old.entries) (members_view members.new.entries) left.new) }
    ensures shorter { OnOk result (length left.new ≤ length left.old) }
{
    let Some(first) = left.next() else {
        return Ok(());
    };
    match portion_below(sieve, key) {
        Portion::Nothing => {
            left.pass_value(first);
            Ok(())
        }
        Portion::Whole => put_outlined::<S>(alloc, key, first, left, None, members),
        Portion::Members(inner) => put_outlined(alloc, key, first, left, Some(inner), members),
    }
}

// Adds the outline of the value that begins with this token, and goes past it.
#[cycle(build)]
fn put_outlined<S: Sieve>(
    alloc: Global,
    key: &str,
    first: HeldToken<'_>,
    left: &mut TokensLeft<'_, '_>,
    sieve: Option<S>,
    members: &mut Map<String, Value>,
) -> Result<(), AllocError>
    ensures puts { OnOk result (KeepsPart S.keeps (portion_by sieve) key.now (held_token first.entry ∷ left.old)
        (members_view members.old.entries) (members_view members.new.entries) left.new) }
    ensures shorter { OnOk result (length left.new ≤ length left.old) }
{
    let value = outlined(alloc, first, left, sieve)?;
    put_value(alloc, key, value, members)
}

// Adds a value under its key, in place of one that stands there. It isn't inlined, since its frame
// would be on the stack at each level.
#[inline(never)]
fn put_value(
    alloc: Global,
    key: &str,
    value: Value,
    members: &mut Map<String, Value>,
) -> Result<(), AllocError>
    ensures { OnOk result (members_view members.new.entries ≡ put key.now (view value) (members_view members.old.entries)) }
{
    members.insert(String::from_str(alloc, key)?, value)?;
    Ok(())
}

// How much is kept of the member with a key; without a sieve, all.
fn portion_below<S: Sieve>(sieve: Option<S>, key: &str) -> Portion<S>
    ensures { result ≡ portion_below S.keeps sieve key.now }
{
    match sieve {
        Some(sieve) => sieve.kept(key),
        None => Portion::Whole,
    }
}
