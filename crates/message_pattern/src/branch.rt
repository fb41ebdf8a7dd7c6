//! What stands before a branch: its selector, or the end of the argument.

ghost use Rattle.std.specs.Prelude.{◌≡◌, ◌∷◌, ◌≤◌, ◌<◌, IfOk, length};
ghost use Rattle.pattern_bytes.specs.PatternBytes.{after_white};
ghost use Rattle.message_pattern.specs.PatternHeads.{head_and_then, is_counting, is_fraction, is_unsigned, is_number, exact_front, keyword_front, selector_front, branch_opens, next_branch, branch_front, is_other};
ghost use Rattle.message_pattern.specs.PatternParts.{selector_view};
ghost use Rattle.message_pattern.specs.Inner.PatternViews.{seen, branch_view, IsBranchBehind};

use crate::error::{Fault, FaultKind};
use crate::head::{fault_at, missing, unclosed};
use crate::part::{ArgumentKind, Selector};
use pattern_bytes::{Class, after_white, after_word, split_run};

// A branch begins, or the argument ends.
pub(crate) enum BranchFront<'p> {
    Closes(&'p [u8]),
    Opens(Selector<'p>, &'p [u8]),
}

impl ArgumentKind {
    // A plural or an ordinal.
    fn counts(self) -> bool
        ensures { result ≡ is_counting self }
    {
        match self {
            ArgumentKind::Plural | ArgumentKind::Ordinal => true,
            ArgumentKind::Select => false,
        }
    }
}

// A point and digits.
fn is_fraction(text: &[u8]) -> bool
    ensures { result ≡ is_fraction text.now }
{
    match text {
        [first, rest @ ..] if *first == b'.' && !rest.is_empty() => {
            let (_, after) = split_run(Class::Digit, rest);
            after.is_empty()
        }
        _ => false,
    }
}

// Digits, with a fraction or none.
fn is_unsigned(text: &[u8]) -> bool
    ensures { result ≡ is_unsigned text.now }
{
    let (digits, rest) = split_run(Class::Digit, text);
    !digits.is_empty() && (rest.is_empty() || is_fraction(rest))
}

// A number, with a minus or none.
fn is_number(text: &[u8]) -> bool
    ensures { result ≡ is_number text.now }
{
    match text {
        [first, rest @ ..] if *first == b'-' => is_unsigned(rest),
        _ => is_unsigned(text),
    }
}

// The number behind `=`.
fn exact_front(text: &[u8]) -> Result<(Selector<'_>, &[u8]), Fault>
    ensures selector { seen (λ x. (selector_view x.0, x.1.now)) result ≡ exact_front text.now }
    ensures shorter { IfOk result (λ x. length x.1.now ≤ length text.now) }
{
    let (number, rest) = split_run(Class::Number, text);
    if !is_number(number) {
        return Err(missing(FaultKind::ExpectedValue, text));
    }
    Ok((Selector::Exactly(number), rest))
}

// The keyword in front of the text.
fn keyword_front(text: &[u8]) -> Result<(Selector<'_>, &[u8]), Fault>
    ensures selector { seen (λ x. (selector_view x.0, x.1.now)) result ≡ keyword_front text.now }
    ensures shorter { IfOk result (λ x. length x.1.now ≤ length text.now) }
{
    let (word, rest) = split_run(Class::Name, text);
    if word.is_empty() {
        return Err(missing(FaultKind::ExpectedSelector, text));
    }
    Ok((Selector::Keyword(word), rest))
}

// The selector in front of the text: an argument that counts may compare with a number.
fn selector_front<'p>(
    kind: ArgumentKind,
    text: &'p [u8],
    first: u8,
    rest: &'p [u8],
) -> Result<(Selector<'p>, &'p [u8]), Fault>
    requires { text.now ≡ first ∷ rest.now }
    ensures selector { seen (λ x. (selector_view x.0, x.1.now)) result ≡ selector_front kind first rest.now }
    ensures shorter { IfOk result (λ x. length x.1.now ≤ length text.now) }
{
    if first == b'=' && kind.counts() {
        exact_front(rest)
    } else {
        keyword_front(text)
    }
}

// The brace that begins the branch of a selector.
fn branch_opens<'p>(selector: Selector<'p>, text: &'p [u8]) -> Result<BranchFront<'p>, Fault>
    ensures branch { seen branch_view result ≡ branch_opens (selector_view selector.entry) text.now }
    ensures shorter { IfOk result (λ x. IsBranchBehind (branch_view x) text.now) }
{
    match text {
        [first, rest @ ..] if *first == b'{' => Ok(BranchFront::Opens(selector, rest)),
        _ => Err(missing(FaultKind::ExpectedBranch, text)),
    }
}

// The selector in front of the text, and the brace of its branch.
fn selected_branch<'p>(
    kind: ArgumentKind,
    text: &'p [u8],
    first: u8,
    rest: &'p [u8],
) -> Result<BranchFront<'p>, Fault>
    requires { text.now ≡ first ∷ rest.now }
    ensures branch { seen branch_view result ≡ head_and_then (selector_front kind first rest.now) (λ x. branch_opens x.0 (after_white x.1)) }
    ensures shorter { IfOk result (λ x. IsBranchBehind (branch_view x) text.now) }
{
    let (selector, after) = selector_front(kind, text, first, rest)?;
    branch_opens(selector, after_white(after))
}

// The next branch in front of the text, or the end: a branch `other` has to stand before it.
fn next_branch(kind: ArgumentKind, has_other: bool, text: &[u8]) -> Result<BranchFront<'_>, Fault>
    ensures branch { seen branch_view result ≡ next_branch kind has_other text.now }
    ensures shorter { IfOk result (λ x. IsBranchBehind (branch_view x) text.now) }
{
    let [first, rest @ ..] = text else {
        return Err(unclosed());
    };
    if *first != b'}' {
        selected_branch(kind, text, *first, rest)
    } else if has_other {
        Ok(BranchFront::Closes(rest))
    } else {
        Err(fault_at(FaultKind::MissingOther, text))
    }
}

// The next branch, or the end, in front of the text.
pub(crate) fn branch_front(
    kind: ArgumentKind,
    has_other: bool,
    text: &[u8],
) -> Result<BranchFront<'_>, Fault>
    ensures branch { seen branch_view result ≡ branch_front kind has_other text.now }
    ensures shorter { IfOk result (λ x. IsBranchBehind (branch_view x) text.now) }
{
    next_branch(kind, has_other, after_white(text))
}

impl<'p> Selector<'p> {
    // The keyword `other`.
    pub(crate) fn is_other(self) -> bool
        ensures { result ≡ is_other (selector_view self.entry) }
    {
        match self {
            Selector::Exactly(_) => false,
            Selector::Keyword(word) => match after_word(b"other", word) {
                Some(rest) => rest.is_empty(),
                None => false,
            },
        }
    }
}
