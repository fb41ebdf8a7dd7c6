//! Findings of translators' files that their pattern or their message excuses.

use icu_plurals::PluralRuleType;
use message_pattern::{ArgumentKind, Part, PatternError, Piece, Selector, StyledPattern};
use message_report::{
    ArgumentPlace, BranchFault, Cause, Finding, FormFault, MessagePlace, PatternPlace, Place,
};
use serde_json::Value;
use std::alloc::{AllocError, Global};
use translation_files::FileMessages;

// Whether a finding is none: that a branch doesn't say the number, where the pattern says it beside
// the argument, or no branch does; that a form doesn't, and none of the message does, whose source
// isn't known; or that a form is missing for which nothing is left beside those of exactly 0 and 1.
pub(crate) fn is_excused(
    alloc: Global,
    read: &FileMessages,
    finding: &Finding<'_>,
) -> Result<bool, AllocError> {
    let document = &read.document;
    match (finding.place, finding.cause) {
        (
            Place::Branch(place, Selector::Keyword(keyword)),
            Cause::Branch(BranchFault::NoHash(..)),
        ) => match text_of(document, &place.pattern) {
            Some(text) => is_said_beside(alloc, text, &place, keyword),
            None => Ok(false),
        },
        (Place::Form(place, _), Cause::Form(FormFault::NoNumber(..))) => {
            Ok(read.placeholder_at(&finding.place).is_some() && lacks_number(document, &place))
        }
        (Place::Form(place, _), Cause::Form(FormFault::MissingRare(_, None, _))) => {
            Ok(has_explicit(document, &place))
        }
        _ => Ok(false),
    }
}

// The text of a pattern.
pub(crate) fn text_of<'d>(document: &'d Value, place: &PatternPlace<'_>) -> Option<&'d str> {
    let locale = document.get(place.locale.locale)?;
    locale.get("patterns")?.get(place.key)?.as_str()
}

// The forms of a message.
fn forms_of<'d>(document: &'d Value, place: &MessagePlace<'_>) -> Option<&'d Value> {
    let part = match place.rule_type {
        PluralRuleType::Cardinal => "cardinal",
        PluralRuleType::Ordinal => "ordinal",
    };
    document.get(place.locale.locale)?.get(part)?.get(place.key)
}

// The arguments of a message's source, if they are known.
fn source_of<'d>(document: &'d Value, place: &MessagePlace<'_>) -> Option<&'d Value> {
    document
        .get(place.locale.locale)?
        .get("source")?
        .get(place.key)
}

// Whether a message has a form of exactly 0 or 1.
fn has_explicit(document: &Value, place: &MessagePlace<'_>) -> bool {
    match forms_of(document, place) {
        Some(forms) => {
            forms.get("explicit_zero").is_some() || forms.get("explicit_one").is_some()
        }
        None => false,
    }
}

// Whether no form of a message has the number, and its source isn't known: of a cardinal and an
// ordinal of one key it is only known where it is the same.
fn lacks_number(document: &Value, place: &MessagePlace<'_>) -> bool {
    let Some(Value::Object(forms)) = forms_of(document, place) else {
        return false;
    };
    for (_, form) in forms.iter() {
        if has_number(form) {
            return false;
        }
    }
    source_of(document, place).is_none()
}

// Whether a form has the number.
fn has_number(form: &Value) -> bool {
    match form.as_str() {
        Some(text) => text.contains("{}"),
        None => false,
    }
}

// Whether a pattern says the number of a name where the branch of a keyword is chosen, or nowhere.
fn is_said_beside(
    alloc: Global,
    text: &str,
    place: &ArgumentPlace<'_>,
    keyword: &[u8],
) -> Result<bool, AllocError> {
    match StyledPattern::parse(alloc, text.as_bytes()) {
        Ok(styled) => {
            let pattern = styled.into_pattern();
            let is_said = Seen::of(pattern.parts(), place.name, keyword).is_said();
            drop(pattern);
            Ok(is_said)
        }
        Err(PatternError::Memory) => Err(AllocError),
        Err(PatternError::Fault(..)) => Ok(false),
    }
}

// Which branch of an outermost plural of a name stands around a part.
#[derive(Clone, Copy, PartialEq, Eq)]
enum Around {
    // None: it is outermost, or in another argument.
    Nothing,
    // That of the keyword.
    Own,
    // Other, if there is none of the keyword.
    Other,
    // Another one.
    Another,
}

// Where a pattern says the number of a name.
#[derive(Clone, Copy)]
struct Seen {
    around: Around,
    // Whether the plural that is looked at has a branch of the keyword.
    has_own: bool,
    // Whether the number is said in it, or else in other.
    own: bool,
    other: bool,
    // Whether it is said where the keyword's branch is chosen, or anywhere.
    is_shown: bool,
    is_anywhere: bool,
    // Whether a plural of the name stands in another argument.
    is_nested: bool,
}

impl Seen {
    // Where parts say it.
    fn of(parts: &[Part<'_>], name: &[u8], keyword: &[u8]) -> Seen {
        let mut seen = Seen {
            around: Around::Nothing,
            has_own: false,
            own: false,
            other: false,
            is_shown: false,
            is_anywhere: false,
            is_nested: false,
        };
        for part in parts {
            if part.depth == 0 {
                seen.pass(part.piece, name, keyword);
            } else {
                seen.look(part, name);
            }
        }
        seen
    }

    // Whether the number is said beside the branch, or nowhere.
    fn is_said(&self) -> bool {
        self.is_shown || !self.is_anywhere && !self.is_nested
    }

    // Goes on to an outermost piece.
    fn pass(&mut self, piece: Piece<'_>, name: &[u8], keyword: &[u8]) {
        match piece {
            Piece::Argument(other) if other == name => self.is_shown = true,
            Piece::Begin(kind, other, _) if kind != ArgumentKind::Select && other == name => {
                self.around = Around::Another;
                self.has_own = false;
                self.own = false;
                self.other = false;
            }
            Piece::Branch(selector) if self.around != Around::Nothing => {
                self.around = branch_of(selector, keyword);
                self.has_own = self.has_own || self.around == Around::Own;
            }
            Piece::End => {
                let said = if self.has_own { self.own } else { self.other };
                self.is_shown = self.is_shown || self.around != Around::Nothing && said;
                self.around = Around::Nothing;
            }
            _ => (),
        }
    }

    // Looks at a part in a branch.
    fn look(&mut self, part: &Part<'_>, name: &[u8]) {
        if let Piece::Begin(_, other, _) = part.piece {
            self.is_nested = self.is_nested || other == name;
        }
        if self.around == Around::Nothing || !says(part, name) {
            return;
        }
        self.is_anywhere = true;
        match self.around {
            Around::Own => self.own = true,
            Around::Other => self.other = true,
            _ => (),
        }
    }
}

// Which branch a selector begins.
fn branch_of(selector: Selector<'_>, keyword: &[u8]) -> Around {
    match selector {
        Selector::Keyword(word) if word == keyword => Around::Own,
        Selector::Keyword(b"other") => Around::Other,
        _ => Around::Another,
    }
}

// Whether a part in an outermost plural of a name says its number.
fn says(part: &Part<'_>, name: &[u8]) -> bool {
    match part.piece {
        Piece::Hash => part.depth == 1,
        Piece::Argument(other) => other == name,
        _ => false,
    }
}
