//! How many steps the chains of a document's parents have.

ghost use Rattle.std.specs.Prelude.{◌≡◌, ◌<◌, ◌≤◌, ℕ, List, Option, [], IfOk, IfSome, MatchBool, is_some, option_map};
ghost use Rattle.std.specs.List.{All};
ghost use Rattle.document_members.specs.ChainSteps.{AreKnown, HasSteps, IsKnown, short_next};
ghost use Rattle.document_members.specs.Inner.Rows.{IsStop};
ghost use Rattle.document_members.specs.ParentRows.{named_parent};
ghost use Rattle.plural_fallback.specs.FirstKeys.{locale_at};

use crate::long_names::MOST_NAME_BYTES;
use crate::parent_rows::Parents;
use plural_fallback::{MOST_LOCALES, next_locale};
use std::alloc::{AllocError, Global};

// The most steps of a walk. Those after MOST_LOCALES show of several locales that their chains go
// on.
const MOST_STEPS: usize = MOST_LOCALES + 16;

// The next locale of a chain, and the place of the row that leads there, if it always does.
#[derive(Clone, Copy)]
pub(crate) struct Step<'p> {
    locale: &'p [u8],
    place: Option<usize>,
}

// A locale after some steps of a chain, and the place of the row that leads there.
#[derive(Clone, Copy)]
pub(crate) struct Stop<'p> {
    locale: &'p [u8],
    place: usize,
    steps: usize,
}

// A locale and how many steps its chain has; MOST_LOCALES if it goes on after these.
#[derive(Clone, Copy)]
pub(crate) struct KnownChain<'p> {
    locale: &'p [u8],
    steps: u8,
}

/// What is known of the chains of a document's parents: at the place of each member of `parents`
/// that of the locale to which it leads, and what was learned last, since locales that follow each
/// other often have the same parent.
#[derive(Drop)]
pub struct KnownChains<'p> {
    rows: Vec<Option<KnownChain<'p>>>,
    last: Option<KnownChain<'p>>,
}

impl<'p> KnownChains<'p> {
    /// Returns so many places, where nothing is known, or out of memory.
    pub fn new(alloc: Global, count: usize) -> Result<KnownChains<'p>, AllocError>
        ensures { IfOk result (λ chains. (next : List ℕ → Option (List ℕ)) → AreKnown next chains) }
    {
        let mut rows = Vec::new(alloc);
        rows.resize(count, None)?;
        Ok(KnownChains { rows, last: None })
    }

    // How many steps the chain of the next locale has, if that is known.
    fn steps_of(&self, step: Step<'_>) -> Option<u8>
        ensures { (next : List ℕ → Option (List ℕ)) → AreKnown next self.now
            → IfSome result (λ steps. HasSteps next step.entry.locale.now steps) }
    {
        if let Some(steps) = steps_if(self.last, step.locale) {
            return Some(steps);
        }
        let place = step.place?;
        if place >= self.rows.len() {
            return None;
        }
        steps_if(self.rows[place], step.locale)
    }

    // Keeps how many steps the chain of a locale on the way has.
    fn learn(&mut self, stop: Stop<'p>, steps: u8)
        ensures { (next : List ℕ → Option (List ℕ)) → AreKnown next self.old → HasSteps next stop.entry.locale.now steps
            → AreKnown next self.new }
    {
        let locale = stop.locale;
        self.last = Some(KnownChain { locale, steps });
        if stop.place < self.rows.len() {
            self.rows[stop.place] = Some(KnownChain { locale, steps });
        }
    }

    // Keeps what a chain of so many steps shows of the locales on the way.
    fn learn_all(&mut self, path: &[Stop<'p>], steps: usize)
        ensures { (next : List ℕ → Option (List ℕ)) (locale : List ℕ) → HasSteps next locale steps
            → All (IsStop next locale) path.now → AreKnown next self.old → AreKnown next self.new }
    {
        for stop in path {
            if let Some(left) = steps_left(stop.steps, steps) {
                self.learn(*stop, left);
            }
        }
    }
}

// The steps of a known chain, if it is that of the locale.
fn steps_if(known: Option<KnownChain<'_>>, locale: &[u8]) -> Option<u8>
    ensures { (next : List ℕ → Option (List ℕ)) → IsKnown next known.entry
        → IfSome result (λ steps. HasSteps next locale.now steps) }
{
    match known {
        Some(known) if known.locale == locale => Some(known.steps),
        _ => None,
    }
}

// How many steps a chain of so many has after the first ones, if that shows.
fn steps_left(before: usize, steps: usize) -> Option<u8>
    ensures { (next : List ℕ → Option (List ℕ)) (locale at : List ℕ) → HasSteps next locale steps
        → locale_at next locale before ≡ Some at → IfSome result (λ left. HasSteps next at left) }
{
    let left = steps.checked_sub(before)?;
    if left >= MOST_LOCALES {
        return Some(MOST_LOCALES as u8);
    }
    if steps < MOST_LOCALES {
        Some(left as u8)
    } else {
        None
    }
}

/// Returns whether the chain of a locale goes on after all the locales that are looked up
/// (`MOST_LOCALES`), or out of memory. What it shows of other chains is added to those that are
/// known.
pub fn goes_on<'p>(
    alloc: Global,
    parents: &'p Parents<'_>,
    chains: &mut KnownChains<'p>,
    locale: &'p [u8],
) -> Result<bool, AllocError>
    requires { AreKnown (short_next (named_parent parents.now)) chains.old }
    ensures answer { IfOk result (λ answer. answer
        ≡ is_some (locale_at (short_next (named_parent parents.now)) locale.now MOST_LOCALES)) }
    ensures known { IfOk result (λ _. AreKnown (short_next (named_parent parents.now)) chains.new) }
{
    let mut path = Vec::new(alloc);
    let steps = walk(alloc, parents, chains, locale, &mut path)?;
    chains.learn_all(path.as_slice(), steps);
    Ok(steps >= MOST_LOCALES)
}

// How many steps the chain of a locale has; the locales on the way to which rows lead are appended.
fn walk<'p>(
    alloc: Global,
    parents: &'p Parents<'_>,
    chains: &KnownChains<'p>,
    locale: &'p [u8],
    path: &mut Vec<Stop<'p>>,
) -> Result<usize, AllocError>
    requires known { AreKnown (short_next (named_parent parents.now)) chains.now }
    requires empty { path.old.items ≡ [] }
    ensures steps { IfOk result (λ steps. HasSteps (short_next (named_parent parents.now)) locale.now steps) }
    ensures path { IfOk result (λ _. All (IsStop (short_next (named_parent parents.now)) locale.now) path.new.items) }
{
    let mut current = locale;
    let mut steps = 0;
    'steps: while shows_more(path.as_slice(), steps) {
        let Some(step) = short_next(alloc, parents, current)? else {
            return Ok(steps);
        };
        steps += 1;
        if let Some(more) = chains.steps_of(step) {
            return Ok(steps + more as usize);
        }
        if step.locale == current {
            return Ok(steps + MOST_STEPS);
        }
        current = step.locale;
        if current == locale {
            return Ok(MOST_STEPS);
        }
        if let Some(place) = step.place {
            path.push(Stop {
                locale: current,
                place,
                steps,
            })?;
        }
    }
    Ok(steps)
}

// Whether a further step of a walk shows something: up to MOST_LOCALES of its first locale, and
// then of one after the other on the way, as long as these are to be kept.
fn shows_more(path: &[Stop<'_>], steps: usize) -> bool
    ensures { MatchBool result (steps < MOST_STEPS) (MOST_LOCALES ≤ steps) }
{
    let Some(before) = steps.checked_sub(MOST_LOCALES) else {
        return true;
    };
    if steps >= MOST_STEPS {
        return false;
    }
    match path.get(before) {
        Some(stop) => stop.steps == before + 1,
        None => false,
    }
}

// The next step of a chain; a long locale is the last.
fn short_next<'p>(
    alloc: Global,
    parents: &'p Parents<'_>,
    locale: &'p [u8],
) -> Result<Option<Step<'p>>, AllocError>
    ensures { IfOk result (λ step. option_map (λ s. s.locale.now) step ≡ short_next (named_parent parents.now) locale.now) }
{
    if locale.len() > MOST_NAME_BYTES {
        return Ok(None);
    }
    let row = parents.row(alloc, locale)?;
    let Some(next) = next_locale(row, locale) else {
        return Ok(None);
    };
    Ok(Some(Step {
        locale: next,
        place: row.place_if_always(locale, next),
    }))
}
