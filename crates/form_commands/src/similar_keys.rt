//! The keys that are similar to an unknown language.

ghost use Rattle.std.specs.Prelude.{◌≡◌, ◌||◌, ◌++◌, ◌∷◌, [], IfOk, List, take, ℕ};
ghost use Rattle.form_commands.specs.Inner.SimilarSteps.{is_like, similar_key_list, told_in};
ghost use Rattle.form_commands.specs.SimilarKeys.{begins_alike, first_three, is_one_edit, is_only_alike, similar_keys};
ghost use Rattle.plural_fallback.specs.LocaleNames.{is_same};
ghost use Rattle.plural_fallback.specs.LocalesJson.{keys_of};
ghost use Rattle.serde_json.specs.View.{members_view};

use crate::name::Name;
use plural_fallback::is_same;
use serde_json::{Map, Value};
use std::alloc::{AllocError, Global};
use std::fmt;

/// At most three keys, in the order in which they are told.
#[derive(Debug, Drop)]
pub enum SimilarKeys {
    /// None.
    Nothing,
    /// One.
    One(Name),
    /// Two.
    Two(Name, Name),
    /// Three.
    Three(Name, Name, Name),
}

impl fmt::Display for SimilarKeys {
    ghost use Rattle.std.specs.Prelude.{Some};
    ghost use Rattle.form_commands.specs.SimilarKeys.{similar_text};

    ghost output = { λ similar. Some (similar_text similar) };

    fn fmt<W: fmt::Write>(&self, f: &mut fmt::Formatter<W>) -> fmt::Result {
        match self {
            SimilarKeys::Nothing => Ok(()),
            SimilarKeys::One(first) => write!(f, "; similar: {}", first.as_str()),
            SimilarKeys::Two(first, second) => {
                write!(f, "; similar: {}, {}", first.as_str(), second.as_str())
            }
            SimilarKeys::Three(first, second, third) => write!(
                f,
                "; similar: {}, {}, {}",
                first.as_str(),
                second.as_str(),
                third.as_str()
            ),
        }
    }
}

impl SimilarKeys {
    // These and one more, if there are fewer than three.
    fn with_key(self, alloc: Global, key: &str) -> Result<SimilarKeys, AllocError>
        ensures { IfOk result (λ similar. similar ≡ first_three (similar_key_list self ++ key.now ∷ [])) }
    {
        match self {
            SimilarKeys::Nothing => Ok(SimilarKeys::One(Name::from_str(alloc, key)?)),
            SimilarKeys::One(first) => Ok(SimilarKeys::Two(first, Name::from_str(alloc, key)?)),
            SimilarKeys::Two(first, second) => {
                let third = Name::from_str(alloc, key)?;
                Ok(SimilarKeys::Three(first, second, third))
            }
            SimilarKeys::Three(first, second, third) => {
                Ok(SimilarKeys::Three(first, second, third))
            }
        }
    }
}

// How a key is like a language.
#[derive(Clone, Copy, Debug)]
pub(crate) enum Likeness {
    // One edit makes it the same.
    OneEdit,
    // It begins as the language, and isn't one edit from it.
    Beginning,
}

// The keys of members that are similar to a language.
pub(crate) fn similar_keys(
    alloc: Global,
    language: &[u8],
    members: &Map<String, Value>,
) -> Result<SimilarKeys, AllocError>
    ensures { IfOk result (λ similar. similar ≡ similar_keys language.now (keys_of (members_view members.now.entries))) }
{
    let near = add_like(
        alloc,
        Likeness::OneEdit,
        language,
        members,
        SimilarKeys::Nothing,
    )?;
    add_like(alloc, Likeness::Beginning, language, members, near)
}

// Some keys, and behind them those of members that are like a language.
fn add_like(
    alloc: Global,
    likeness: Likeness,
    language: &[u8],
    members: &Map<String, Value>,
    before: SimilarKeys,
) -> Result<SimilarKeys, AllocError>
    ensures { IfOk result (λ similar. similar ≡ told_in likeness language.now before (keys_of (members_view members.now.entries))) }
{
    let mut similar = before;
    for (key, _) in members.iter() {
        similar = add_key(alloc, likeness, language, key.as_str(), similar)?;
    }
    Ok(similar)
}

// Some keys, and behind them a further one, if it is like a language.
fn add_key(
    alloc: Global,
    likeness: Likeness,
    language: &[u8],
    key: &str,
    before: SimilarKeys,
) -> Result<SimilarKeys, AllocError>
    ensures { IfOk result (λ similar. (more : List (List ℕ))
        → told_in likeness language.now before (key.now ∷ more) ≡ told_in likeness language.now similar more) }
{
    if is_like(likeness, language, key.as_bytes()) {
        before.with_key(alloc, key)
    } else {
        Ok(before)
    }
}

// Whether a key is like a language in this way.
fn is_like(likeness: Likeness, language: &[u8], key: &[u8]) -> bool
    ensures { result ≡ is_like likeness language.now key.now }
{
    let is_near = is_one_edit(language, key);
    match likeness {
        Likeness::OneEdit => is_near,
        Likeness::Beginning => begins_alike(language, key) && !is_near,
    }
}

// Whether two names have the same first two letters.
fn begins_alike(language: &[u8], key: &[u8]) -> bool
    ensures { result ≡ begins_alike language.now key.now }
{
    is_same(first_two(language), first_two(key))
}

// The first two bytes, or those that there are.
fn first_two(name: &[u8]) -> &[u8]
    ensures { result.now ≡ take 2 name.now }
{
    if name.len() < 2 {
        return name;
    }
    &name[..2]
}

// Whether one edit makes two names the same. Past their common front it is a byte less here, one
// less there, or another one.
pub(crate) fn is_one_edit(one: &[u8], other: &[u8]) -> bool
    ensures { result ≡ is_one_edit one.now other.now }
{
    let mut ones = one;
    let mut others = other;
    while let [first, rest @ ..] = ones {
        let [second, after @ ..] = others else {
            return ones.len() == 1;
        };
        if !is_same(&[*first], &[*second]) {
            return is_edited_here(ones, rest, others, after);
        }
        ones = rest;
        others = after;
    }
    others.len() == 1
}

// Whether a byte less on a side, or another one, makes two names the same, of which this is the
// rest behind their first bytes.
fn is_edited_here(ones: &[u8], rest: &[u8], others: &[u8], after: &[u8]) -> bool
    ensures { result ≡ (is_same rest.now others.now || is_same ones.now after.now || is_same rest.now after.now) }
{
    is_same(rest, others) || is_same(ones, after) || is_same(rest, after)
}
