//! The keys that stand more than once in an object of a JSON text.

ghost use Rattle.std.specs.Prelude.{◌≡◌, ◌≤◌, ◌++◌, ◌∷◌, [], List, ℕ, OnOk, length, option_map};
ghost use Rattle.json.specs.Json as json;
ghost use Rattle.document_tokens.specs.HeldTokens.{Held as HeldLeft, held_members, held_token, held_tokens};
ghost use Rattle.plural_documents.specs.Inner.KeysStanding.{AddsRepeated, AreStanding, IsFoundAgain, object_path};
ghost use Rattle.plural_documents.specs.RepeatedKeys.{AreRepeatedIn, AreRepeatedInObject, GivesRepeated, path_below, path_view};

use crate::json_tokens::tokens_of;
use crate::tokens_left::TokensLeft;
use document_tokens::{HeldToken, JsonTextError};
use json::Scratch;
use std::alloc::{AllocError, Global};
use std::collections::BTreeSet;

/// The keys that lead from the outermost object of a JSON text to an object.
#[derive(Clone, Copy, Debug)]
pub enum KeyPath<'a> {
    /// None: the outermost object.
    Outermost,
    /// The key of the object in the outermost one.
    One(&'a str),
    /// Two keys, the outer one first.
    Two(&'a str, &'a str),
    /// Three keys.
    Three(&'a str, &'a str, &'a str),
}

impl<'a> KeyPath<'a> {
    // The path of the object under a key, if that is no longer than three keys.
    fn below(self, key: &'a str) -> Option<KeyPath<'a>>
        ensures { option_map path_view result ≡ path_below (path_view self.entry) key.now }
    {
        match self {
            KeyPath::Outermost => Some(KeyPath::One(key)),
            KeyPath::One(first) => Some(KeyPath::Two(first, key)),
            KeyPath::Two(first, second) => Some(KeyPath::Three(first, second, key)),
            KeyPath::Three(..) => None,
        }
    }
}

/// A key that stands more than once in an object.
#[derive(Clone, Copy, Debug)]
pub struct RepeatedKey<'a> {
    /// The object.
    pub path: KeyPath<'a>,
    /// The key.
    pub key: &'a str,
}

/// Returns the keys that stand more than once in an object of the value that the bytes write, if at
/// most three keys lead to the object: those of inner objects first, and of one object each key once,
/// in the order of their bytes. Objects in arrays aren't looked at.
///
/// All of the text is read; some keys are held in `scratch`. It allocates. The errors are those of
/// [`json_value`](crate::json_value).
pub fn repeated_keys<'a>(
    alloc: Global,
    bytes: &'a [u8],
    scratch: &'a mut Scratch,
) -> Result<Vec<RepeatedKey<'a>>, JsonTextError>
    ensures { GivesRepeated bytes.now result }
{
    let tokens = tokens_of(alloc, bytes, scratch)?;
    let mut left = TokensLeft::of(tokens.as_slice());
    let mut found = Vec::new(alloc);
    match add_value(alloc, Some(KeyPath::Outermost), &mut left, &mut found) {
        Ok(()) => Ok(found),
        Err(_) => Err(JsonTextError::Memory),
    }
}

// Adds those of the value that comes next, which is passed, and is looked at if it has a path.
#[cycle(objects)]
fn add_value<'a>(
    alloc: Global,
    path: Option<KeyPath<'a>>,
    left: &mut TokensLeft<'_, 'a>,
    found: &mut Vec<RepeatedKey<'a>>,
) -> Result<(), AllocError>
    ensures found { OnOk result ((value : json.Json) (rest : List HeldLeft) → left.old ≡ held_tokens value ++ rest
        → AddsRepeated (AreRepeatedIn (option_map path_view path.entry) value) found.old.items found.new.items rest left.new) }
    ensures shorter { OnOk result (length left.new ≤ length left.old) }
{
    let Some(first) = left.next() else {
        return Ok(());
    };
    match object_path(first, path) {
        Some(path) => add_object(alloc, path, left, found),
        None => {
            left.pass_value(first);
            Ok(())
        }
    }
}

// Adds those of an object, whose members come next, and are passed.
#[cycle(objects)]
fn add_object<'a>(
    alloc: Global,
    path: KeyPath<'a>,
    left: &mut TokensLeft<'_, 'a>,
    found: &mut Vec<RepeatedKey<'a>>,
) -> Result<(), AllocError>
    ensures found { OnOk result ((members : json.Members) (rest : List HeldLeft) → left.old ≡ held_members members ++ rest
        → AddsRepeated (AreRepeatedInObject (path_view path.entry) members) found.old.items found.new.items rest left.new) }
    ensures shorter { OnOk result (length left.new ≤ length left.old) }
{
    let mut keys = StandingKeys::new(alloc);
    while let Some(first) = left.next() {
        let HeldToken::Key(key) = first else {
            break;
        };
        keys.add(key)?;
        add_value(alloc, path.below(key), left, found)?;
    }
    keys.push_again(path, found)
}

// The path of a value that begins with this token, if that is an object.
fn object_path<'a>(first: HeldToken<'_>, path: Option<KeyPath<'a>>) -> Option<KeyPath<'a>>
    ensures { option_map path_view result ≡ object_path (held_token first.entry) (option_map path_view path.entry) }
{
    match first {
        HeldToken::BeginObject => path,
        _ => None,
    }
}

// The keys of an object so far.
#[derive(Drop)]
struct StandingKeys<'a> {
    // Those that stand there.
    once: BTreeSet<&'a str>,
    // Those that stand there more than once.
    again: BTreeSet<&'a str>,
}

impl<'a> StandingKeys<'a> {
    // None.
    fn new(alloc: Global) -> StandingKeys<'a>
        ensures { AreStanding [] result }
    {
        StandingKeys {
            once: BTreeSet::new(alloc),
            again: BTreeSet::new(alloc),
        }
    }

    // Adds the next key.
    fn add(&mut self, key: &'a str) -> Result<(), AllocError>
        ensures { OnOk result ((keys : List (List ℕ)) → AreStanding keys self.old → AreStanding (keys ++ key.now ∷ []) self.new) }
    {
        if !self.once.insert(key)? {
            self.again.insert(key)?;
        }
        Ok(())
    }

    // Adds those that stand there more than once to what was found.
    fn push_again(
        &self,
        path: KeyPath<'a>,
        found: &mut Vec<RepeatedKey<'a>>,
    ) -> Result<(), AllocError>
        ensures { OnOk result ((keys : List (List ℕ)) → AreStanding keys self.now → IsFoundAgain keys (path_view path.entry) found.old.items found.new.items) }
    {
        for key in self.again.iter() {
            found.push(RepeatedKey { path, key: *key })?;
        }
        Ok(())
    }
}
