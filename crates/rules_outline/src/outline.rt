//! The outline of a document of rules: what is kept of it serves one locale as the whole does.

ghost use Rattle.std.specs.Prelude.{◌≡◌, ◌≤◌, IfOk, IfSome, codes, take, length, string_bytes};
ghost use Rattle.rules_outline.specs.Inner.RulesOutline.{HoldsPart, IsFirstInside, is_among, is_inside, is_part, steps_view};
ghost use Rattle.rules_outline.specs.KeptRules.{IsServedBy, GivesKeptRules, key_by};
ghost use Rattle.plural_fallback.specs.LocaleNames.{is_same};
ghost use Rattle.serde_json.specs.View.{view};

use plural_documents::{JsonTextError, JsonTokens, Portion, Scratch, Sieve};
use plural_fallback::{
    FallbackError, Locales, MOST_LOOKED_UP, Part, find_first, is_same, next_locale,
};
use serde_json::Value;
use std::alloc::{AllocError, Global};

// The most locales of a chain that are walked in an outline: more than those of a language with a
// script, a region and five keywords.
const MOST_STEPS: usize = 16;

// The locales whose keys are kept.
#[derive(Clone, Copy)]
pub(crate) enum KeptLocales<'a> {
    // Those that this locale begins with, and `root`.
    Fronts(&'a [u8]),
    // These.
    These(&'a [&'a [u8]]),
    // All.
    All,
}

// What is kept of a document of rules.
#[derive(Clone, Copy)]
pub(crate) enum RulesSieve<'a> {
    // Of a document this part and the parents.
    Document(Part, KeptLocales<'a>),
    // Of a part the keys of these locales.
    Keys(KeptLocales<'a>),
    // Of a document the parents alone.
    Parents,
}

impl<'a> Sieve for RulesSieve<'a> {
    ghost use Rattle.rules_outline.specs.Inner.RulesOutline.{keeps_rules};

    ghost keeps = { keeps_rules };

    fn kept(&self, key: &str) -> Portion<RulesSieve<'a>> {
        match *self {
            RulesSieve::Document(part, locales) => if is_part(part, key) {
                Portion::Members(RulesSieve::Keys(locales))
            } else {
                Portion::Nothing
            },
            RulesSieve::Keys(locales) => if is_inside(locales, key.as_bytes()) {
                Portion::Whole
            } else {
                Portion::Nothing
            },
            RulesSieve::Parents => if key == "parents" {
                Portion::Whole
            } else {
                Portion::Nothing
            },
        }
    }
}

// Whether a key of a document is that of the part or of the parents.
fn is_part(part: Part, key: &str) -> bool
    ensures { result ≡ is_part part key.now }
{
    key == part.as_str() || key == "parents"
}

// Whether a locale is among the kept ones.
#[inline(always)]
fn is_inside(locales: KeptLocales<'_>, locale: &[u8]) -> bool
    ensures { result ≡ is_inside locales.entry locale.now }
{
    match locales {
        KeptLocales::Fronts(longest) => is_front(locale, longest) || is_root(locale),
        KeptLocales::These(steps) => is_among(locale, steps),
        KeptLocales::All => true,
    }
}

// Whether a locale is the same as what another one begins with.
#[inline(always)]
fn is_front(locale: &[u8], longest: &[u8]) -> bool
    ensures { result ≡ is_same locale.now (take (length locale.now) longest.now) }
{
    if locale.len() > longest.len() {
        return false;
    }
    is_same(locale, &longest[..locale.len()])
}

// Whether a locale is `root`.
#[inline(always)]
fn is_root(locale: &[u8]) -> bool
    ensures { result ≡ is_same locale.now (codes "root") }
{
    if locale.len() != 4 {
        return false;
    }
    is_same(locale, b"root")
}

// Whether a locale is the same as one of these.
fn is_among(locale: &[u8], steps: &[&[u8]]) -> bool
    ensures { result ≡ is_among locale.now (steps_view steps.now) }
{
    let mut rest = steps;
    while let [step, after @ ..] = rest {
        if is_same(locale, step) {
            return true;
        }
        rest = after;
    }
    false
}

/// What is kept of a document of rules for a locale.
#[derive(Drop)]
pub struct KeptRules {
    /// The first key of the locale's chain in the part, or why there is none.
    pub key: Result<String, FallbackError>,
    /// A value that has under this key of the part what the document has.
    pub document: Value,
}

/// Returns what is kept of the document that bytes write, for a locale and a part.
///
/// The text is read once. Kept of the part are the keys of the locales that this one begins with,
/// or those of its chain, or all, if the locale is long or its chain has many locales. The errors
/// are those of the whole document. It allocates.
pub fn kept_rules(
    alloc: Global,
    part: Part,
    locale: &str,
    bytes: &[u8],
) -> Result<KeptRules, JsonTextError>
    ensures { GivesKeptRules part locale.now bytes.now result }
{
    let names = [part.as_str(), "parents"];
    let mut scratch = Scratch::new(alloc);
    let text = JsonTokens::read_members(alloc, &names, bytes, &mut scratch)?;
    match rules_in_text(alloc, part, locale, &text) {
        Ok(kept) => Ok(kept),
        Err(_) => Err(JsonTextError::Memory),
    }
}

// The same of a text that was read, of which the part and the parents are held.
fn rules_in_text(
    alloc: Global,
    part: Part,
    locale: &str,
    text: &JsonTokens<'_>,
) -> Result<KeptRules, AllocError>
    requires { HoldsPart part text.now }
    ensures { IfOk result (IsServedBy part locale.now text.now.bytes) }
{
    let fronts = KeptLocales::Fronts(locale.as_bytes());
    match rules_inside(alloc, part, locale, fronts, text) {
        Ok(Some(kept)) => Ok(kept),
        Ok(None) => rules_by_chain(alloc, part, locale, text),
        Err(error) => Err(error),
    }
}

// The same with the locales of the chain, if it stays among them, else with all of the part.
fn rules_by_chain(
    alloc: Global,
    part: Part,
    locale: &str,
    text: &JsonTokens<'_>,
) -> Result<KeptRules, AllocError>
    requires { HoldsPart part text.now }
    ensures { IfOk result (IsServedBy part locale.now text.now.bytes) }
{
    match rules_by_parents(alloc, part, locale, text) {
        Ok(Some(kept)) => Ok(kept),
        Ok(None) => rules_of_part(alloc, part, locale, text),
        Err(error) => Err(error),
    }
}

// What is kept of an outline with the locales of the chain, whose parents are outlined first.
fn rules_by_parents(
    alloc: Global,
    part: Part,
    locale: &str,
    text: &JsonTokens<'_>,
) -> Result<Option<KeptRules>, AllocError>
    requires { HoldsPart part text.now }
    ensures { IfOk result (λ found. IfSome found (IsServedBy part locale.now text.now.bytes)) }
{
    match text.outline(alloc, RulesSieve::Parents) {
        Ok(parents) => rules_of_chain(alloc, part, locale, &parents, text),
        Err(error) => Err(error),
    }
}

// What is kept of an outline with these locales, if the chain stays among them.
fn rules_inside(
    alloc: Global,
    part: Part,
    locale: &str,
    locales: KeptLocales<'_>,
    text: &JsonTokens<'_>,
) -> Result<Option<KeptRules>, AllocError>
    requires { HoldsPart part text.now }
    ensures { IfOk result (λ found. IfSome found (IsServedBy part locale.now text.now.bytes)) }
{
    let document = text.outline(alloc, RulesSieve::Document(part, locales))?;
    let Some(first) = first_inside(&document, part, locale, locales) else {
        drop(document);
        return Ok(None);
    };
    match owned(alloc, first) {
        Ok(key) => Ok(Some(KeptRules { key, document })),
        Err(error) => {
            drop(document);
            Err(error)
        }
    }
}

// What is kept of an outline with all of the part.
fn rules_of_part(
    alloc: Global,
    part: Part,
    locale: &str,
    text: &JsonTokens<'_>,
) -> Result<KeptRules, AllocError>
    requires { HoldsPart part text.now }
    ensures { IfOk result (IsServedBy part locale.now text.now.bytes) }
{
    let document = text.outline(alloc, RulesSieve::Document(part, KeptLocales::All))?;
    let key = owned(alloc, find_first(&document, part, locale))?;
    Ok(KeptRules { key, document })
}

// A key as a text of its own.
fn owned(
    alloc: Global,
    first: Result<&str, FallbackError>,
) -> Result<Result<String, FallbackError>, AllocError>
    ensures { IfOk result (λ key. key_by string_bytes key ≡ key_by (λ k. k.now) first.entry) }
{
    match first {
        Ok(key) => Ok(Ok(String::from_str(alloc, key)?)),
        Err(reason) => Ok(Err(reason)),
    }
}

// What is kept of an outline with the locales of the chain, unless these are many, if it stays
// among them.
fn rules_of_chain<'a>(
    alloc: Global,
    part: Part,
    locale: &'a str,
    parents: &'a Value,
    text: &JsonTokens<'_>,
) -> Result<Option<KeptRules>, AllocError>
    requires { HoldsPart part text.now }
    ensures { IfOk result (λ found. IfSome found (IsServedBy part locale.now text.now.bytes)) }
{
    let mut steps = [locale.as_bytes(); MOST_STEPS];
    let Some(count) = walk(parents, locale.as_bytes(), &mut steps) else {
        return Ok(None);
    };
    let chain = KeptLocales::These(&steps[..count]);
    rules_inside(alloc, part, locale, chain, text)
}

// Writes the locales of a chain, and returns how many, unless there are too many.
fn walk<'a>(
    parents: &'a Value,
    locale: &'a [u8],
    steps: &mut [&'a [u8]; MOST_STEPS],
) -> Option<usize>
    ensures { IfSome result (λ count. count ≤ length steps.new) }
{
    let mut current = locale;
    let mut count = 0;
    while count < MOST_STEPS {
        steps[count] = current;
        count += 1;
        let Some(next) = next_locale(parents, current) else {
            return Some(count);
        };
        current = next;
    }
    None
}

// The first key of a chain, or why there is none, if the chain stays among these locales up to
// there. It isn't told of a chain with a long locale, nor of one with many before the first key.
fn first_inside<'a>(
    document: &'a Value,
    part: Part,
    locale: &'a str,
    locales: KeptLocales<'_>,
) -> Option<Result<&'a str, FallbackError>>
    ensures { IfSome result (λ first. IsFirstInside locales.entry (view document.now) part locale.now (key_by (λ k. k.now) first)) }
{
    let mut current = locale.as_bytes();
    let mut steps = 0;
    while steps < MOST_STEPS {
        if current.len() > MOST_LOOKED_UP || !is_inside(locales, current) {
            return None;
        }
        if let Some(key) = document.find_key(part, current) {
            return Some(Ok(key));
        }
        let Some(next) = next_locale(document, current) else {
            return Some(Err(FallbackError::NotFound));
        };
        current = next;
        steps += 1;
    }
    None
}
