//! The texts under the keys of an object.

ghost use Rattle.std.specs.Prelude.{IfErr, IfOk, map};
ghost use Rattle.catalog_commands.specs.DocumentPatterns.{AreTextsOf};
ghost use Rattle.catalog_commands.specs.Inner.KeyedViews.{TellsNoText, keyed_view};
ghost use Rattle.serde_json.specs.View.{members_view};

use crate::fault::PatternsFault;
use serde_json::{Map, Value};
use std::alloc::Global;

// A key, and the text under it.
#[derive(Clone, Copy)]
pub(crate) struct Keyed<'a> {
    pub(crate) key: &'a str,
    pub(crate) text: &'a str,
}

// The texts, or the first key without one.
pub(crate) fn texts_of<'a>(
    alloc: Global,
    members: &'a Map<String, Value>,
) -> Result<Vec<Keyed<'a>>, PatternsFault<'a>>
    ensures texts { IfOk result (λ texts. AreTextsOf (members_view members.now.entries) (map keyed_view texts.items)) }
    ensures fault { IfErr result (TellsNoText (members_view members.now.entries)) }
{
    let mut texts = Vec::new(alloc);
    for (key, value) in members.iter() {
        let key = key.as_str();
        let Some(text) = value.as_str() else {
            return Err(PatternsFault::NoText(key));
        };
        if texts.push(Keyed { key, text }).is_err() {
            return Err(PatternsFault::Memory);
        }
    }
    Ok(texts)
}
