//! The patterns of ARB files, as ICU writes them.

use crate::json_file::apostrophes::{Meant, with_doubled};
use crate::json_file::spoken_categories::{Named, Spoken};
use crate::pushed::push;
use message_pattern::{ArgumentKind, Part, Pattern, PatternError, Piece, Selector, StyledPattern};
use std::alloc::{AllocError, Global};

// What a pattern of an ARB file says, as ICU writes it: apostrophes stand for themselves, unless it
// is a pattern only where they quote, and zero, one and two are the same as `=0`, `=1` and `=2`:
// for the category, if the language has it, else for this number. None, if that is the text itself.
pub(crate) fn arb_text(
    alloc: Global,
    text: &str,
    spoken: Spoken,
) -> Result<Option<String>, AllocError> {
    if text.contains("'") {
        let doubled = with_doubled(alloc, text, Meant::All)?;
        let meant = meant_text(alloc, doubled.as_str(), spoken)?;
        if meant.is_some() {
            return Ok(meant);
        }
    }
    if may_differ(text, spoken) {
        return meant_text(alloc, text, spoken);
    }
    Ok(None)
}

// Whether a text may have a category that the language lacks, or a number of one that it has.
fn may_be(text: &str, named: Named, category: &str, number: &str) -> bool {
    match named {
        Named::Lacking => text.contains(category),
        Named::Alone => false,
        Named::Shared => text.contains(number),
    }
}

// Whether a selector in a text may stand for another one.
fn may_differ(text: &str, spoken: Spoken) -> bool {
    may_be(text, spoken.zero, "zero", "=0")
        || (may_be(text, spoken.one, "one", "=1") || may_be(text, spoken.two, "two", "=2"))
}

// The text of a pattern with the selectors that are meant; none, if it is no pattern.
fn meant_text(alloc: Global, text: &str, spoken: Spoken) -> Result<Option<String>, AllocError> {
    match StyledPattern::parse(alloc, text.as_bytes()) {
        Ok(styled) => {
            let pattern = styled.into_pattern();
            let meant = with_meant(alloc, text, pattern.parts(), spoken);
            drop(pattern);
            match meant {
                Ok(meant) => Ok(Some(meant)),
                Err(error) => Err(error),
            }
        }
        Err(PatternError::Memory) => Err(AllocError),
        Err(PatternError::Fault(..)) => Ok(None),
    }
}

// The text of a pattern that has these parts, with the selectors that are meant.
fn with_meant(
    alloc: Global,
    text: &str,
    parts: &[Part<'_>],
    spoken: Spoken,
) -> Result<String, AllocError> {
    if !parts.iter().any(|it| meant_of(it.piece, spoken).is_some()) {
        return String::from_str(alloc, text);
    }
    let mut all = Vec::new(alloc);
    let mut kinds = Vec::new(alloc);
    push_meant(&mut all, &mut kinds, parts, spoken)?;
    let pattern = Pattern::from_parts(all);
    let made = pattern.to_text(alloc);
    drop(pattern);
    String::from_utf8_lossy(alloc, &made?)
}

// Appends parts with the selectors that are meant. The kinds are those of the arguments around one.
fn push_meant<'t>(
    all: &mut Vec<Part<'t>>,
    kinds: &mut Vec<ArgumentKind>,
    parts: &[Part<'t>],
    spoken: Spoken,
) -> Result<(), AllocError> {
    for part in parts {
        let depth = part.depth;
        if let Piece::Begin(kind, _, _) = part.piece {
            kinds.truncate(depth);
            push(kinds, kind)?;
        }
        let meant = match kinds.get(depth) {
            Some(ArgumentKind::Plural) => meant_of(part.piece, spoken),
            _ => None,
        };
        let piece = match meant {
            Some(selector) => Piece::Branch(selector),
            None => part.piece,
        };
        push(all, Part { depth, piece })?;
    }
    Ok(())
}

// The selector that the one of a branch of a plural stands for, if that is another one.
fn meant_of(piece: Piece<'_>, spoken: Spoken) -> Option<Selector<'static>> {
    let Piece::Branch(selector) = piece else {
        return None;
    };
    match selector {
        Selector::Keyword(b"zero") => exactly(spoken.zero, b"0"),
        Selector::Keyword(b"one") => exactly(spoken.one, b"1"),
        Selector::Keyword(b"two") => exactly(spoken.two, b"2"),
        Selector::Exactly(b"0") => keyword(spoken.zero, b"zero"),
        Selector::Exactly(b"1") => keyword(spoken.one, b"one"),
        Selector::Exactly(b"2") => keyword(spoken.two, b"two"),
        _ => None,
    }
}

// The selector of a number, if the language lacks its category.
fn exactly(named: Named, number: &'static [u8]) -> Option<Selector<'static>> {
    if named == Named::Lacking {
        Some(Selector::Exactly(number))
    } else {
        None
    }
}

// The selector of a category, if other numbers have it, too.
fn keyword(named: Named, category: &'static [u8]) -> Option<Selector<'static>> {
    if named == Named::Shared {
        Some(Selector::Keyword(category))
    } else {
        None
    }
}
