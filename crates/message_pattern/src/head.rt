//! The head of an argument: what stands between its brace and its end or its branches.

ghost use Rattle.std.specs.Prelude.{◌≡◌, ◌∷◌, ◌≤◌, ◌<◌, IfOk, false, length};
ghost use Rattle.message_pattern.specs.PatternHeads.{pattern_fault_at, unclosed, missing_front_fault, is_bad_number, name_front, kind_named, style_front, kind_before, kind_front, digits_front, offset_front, choice_front, is_simple_type, text_before, styled_front, simple_front, typed_front, behind_name, head_front};
ghost use Rattle.message_pattern.specs.PatternStyles.{behind_style};
ghost use Rattle.message_pattern.specs.Inner.PatternViews.{seen, head_view, digits_view};

use crate::error::{Fault, FaultKind};
use crate::part::ArgumentKind;
use crate::style::behind_style;
use pattern_bytes::{Class, after_white, after_word, split_run};

// Whether an argument may have a simple format, as `{d, date, short}`.
#[derive(Clone, Copy)]
pub(crate) enum Formats {
    Refused,
    Allowed,
}

// What follows the brace that begins an argument.
pub(crate) enum Head<'p> {
    // Shown as it is, or by a simple format: what stands between the braces.
    Plain(&'p [u8]),
    Choice(ArgumentKind, &'p [u8], Option<&'p [u8]>),
}

// The fault of this kind in front of the text.
pub(crate) fn fault_at(kind: FaultKind, text: &[u8]) -> Fault
    ensures { result ≡ pattern_fault_at kind text.now }
{
    Fault {
        kind,
        left: text.len(),
    }
}

// The fault of a text that ends where more has to come.
pub(crate) fn unclosed() -> Fault
    ensures { result ≡ unclosed }
{
    Fault {
        kind: FaultKind::Unclosed,
        left: 0,
    }
}

// What is expected isn't in front of the text.
pub(crate) fn missing(kind: FaultKind, text: &[u8]) -> Fault
    ensures { result ≡ missing_front_fault kind text.now }
{
    match text {
        [] => unclosed(),
        _ => fault_at(kind, text),
    }
}

// A number with a zero before other digits.
fn is_bad_number(name: &[u8]) -> bool
    ensures { result ≡ is_bad_number name.now }
{
    match name {
        [first, rest @ ..] if *first == b'0' && !rest.is_empty() => {
            let (_, after) = split_run(Class::Digit, rest);
            after.is_empty()
        }
        _ => false,
    }
}

// The name in front of the text, and what follows it and white space.
fn name_front(text: &[u8]) -> Result<(&[u8], &[u8]), Fault>
    ensures name { seen (λ x. (x.0.now, x.1.now)) result ≡ name_front text.now }
    ensures shorter { IfOk result (λ x. length x.1.now ≤ length text.now) }
{
    let (name, rest) = split_run(Class::Name, text);
    if name.is_empty() {
        return Err(missing(FaultKind::ExpectedName, text));
    }
    if is_bad_number(name) {
        return Err(fault_at(FaultKind::BadNumber, text));
    }
    Ok((name, after_white(rest)))
}

// The kind that a type names.
fn kind_named(word: &[u8]) -> Option<ArgumentKind>
    ensures { result ≡ kind_named word.now }
{
    if word.eq_ignore_ascii_case(b"plural") {
        Some(ArgumentKind::Plural)
    } else if word.eq_ignore_ascii_case(b"selectordinal") {
        Some(ArgumentKind::Ordinal)
    } else if word.eq_ignore_ascii_case(b"select") {
        Some(ArgumentKind::Select)
    } else {
        None
    }
}

// The comma before the argument's style.
fn style_front(kind: ArgumentKind, text: &[u8]) -> Result<(ArgumentKind, &[u8]), Fault>
    ensures style { seen (λ x. (x.0, x.1.now)) result ≡ style_front kind text.now }
    ensures shorter { IfOk result (λ x. length x.1.now ≤ length text.now) }
{
    match text {
        [first, rest @ ..] if *first == b',' => Ok((kind, rest)),
        _ => Err(missing(FaultKind::ExpectedStyle, text)),
    }
}

// A type is in front of the text, which is followed by the rest.
fn kind_before<'p>(
    text: &[u8],
    kind: Option<ArgumentKind>,
    rest: &'p [u8],
) -> Result<(ArgumentKind, &'p [u8]), Fault>
    ensures kind { seen (λ x. (x.0, x.1.now)) result ≡ kind_before text.now kind rest.now }
    ensures shorter { IfOk result (λ x. length x.1.now ≤ length rest.now) }
{
    match kind {
        Some(kind) => style_front(kind, rest),
        None => Err(fault_at(FaultKind::UnsupportedType, text)),
    }
}

// The type in front of the text, and what follows it and its comma.
fn kind_front(text: &[u8]) -> Result<(ArgumentKind, &[u8]), Fault>
    ensures kind { seen (λ x. (x.0, x.1.now)) result ≡ kind_front text.now }
    ensures shorter { IfOk result (λ x. length x.1.now ≤ length text.now) }
{
    let (word, rest) = split_run(Class::Letter, text);
    if word.is_empty() {
        return Err(missing(FaultKind::ExpectedType, text));
    }
    kind_before(text, kind_named(word), after_white(rest))
}

// The digits in front of the text.
fn digits_front(text: &[u8]) -> Result<(Option<&[u8]>, &[u8]), Fault>
    ensures digits { seen digits_view result ≡ digits_front text.now }
    ensures shorter { IfOk result (λ x. length x.1.now ≤ length text.now) }
{
    let (digits, rest) = split_run(Class::Digit, text);
    if digits.is_empty() {
        return Err(missing(FaultKind::ExpectedOffset, text));
    }
    Ok((Some(digits), rest))
}

// The offset in front of the text: a select has none.
fn offset_front(kind: ArgumentKind, text: &[u8]) -> Result<(Option<&[u8]>, &[u8]), Fault>
    ensures offset { seen digits_view result ≡ offset_front kind text.now }
    ensures shorter { IfOk result (λ x. length x.1.now ≤ length text.now) }
{
    if let ArgumentKind::Select = kind {
        return Ok((None, text));
    }
    let text = after_white(text);
    match after_word(b"offset:", text) {
        Some(rest) => digits_front(after_white(rest)),
        None => Ok((None, text)),
    }
}

// The argument with this name chooses: its type and its offset are in front of the text.
fn choice_front<'p>(name: &'p [u8], text: &'p [u8]) -> Result<(Head<'p>, &'p [u8]), Fault>
    ensures head { seen (λ x. (head_view x.0, x.1.now)) result ≡ choice_front name.now text.now }
    ensures shorter { IfOk result (λ x. length x.1.now ≤ length text.now) }
{
    let (kind, rest) = kind_front(after_white(text))?;
    let (offset, rest) = offset_front(kind, rest)?;
    Ok((Head::Choice(kind, name, offset), rest))
}

// Whether the word is the type of a simple format.
fn is_simple_type(word: &[u8]) -> bool
    ensures { result ≡ is_simple_type word.now }
{
    !word.is_empty() && (kind_named(word).is_none() && !word.eq_ignore_ascii_case(b"choice"))
}

// What stands in the text before the brace that the rest follows.
fn text_before<'p>(text: &'p [u8], rest: &[u8]) -> &'p [u8]
    requires { length rest.now < length text.now }
    ensures { result.now ≡ text_before text.now rest.now }
{
    &text[..text.len() - rest.len() - 1]
}

// The style in front of the text, with which the argument ends.
fn styled_front<'p>(argument: &'p [u8], text: &'p [u8]) -> Result<(Head<'p>, &'p [u8]), Fault>
    requires { length text.now ≤ length argument.now }
    ensures head { seen (λ x. (head_view x.0, x.1.now)) result ≡ styled_front argument.now (behind_style 0 false text.now) }
    ensures shorter { IfOk result (λ x. length x.1.now ≤ length text.now) }
{
    match behind_style(text) {
        Some(rest) => Ok((Head::Plain(text_before(argument, rest)), rest)),
        None => Err(unclosed()),
    }
}

// The end of an argument with a simple format, or its style, stands behind the type; the argument
// is all from its name on.
fn simple_front<'p>(argument: &'p [u8], behind: &'p [u8]) -> Result<(Head<'p>, &'p [u8]), Fault>
    requires { length behind.now ≤ length argument.now }
    ensures head { seen (λ x. (head_view x.0, x.1.now)) result ≡ simple_front argument.now behind.now }
    ensures shorter { IfOk result (λ x. length x.1.now ≤ length behind.now) }
{
    let [first, after @ ..] = behind else {
        return Err(unclosed());
    };
    match *first {
        b'}' => Ok((Head::Plain(text_before(argument, after)), after)),
        b',' => styled_front(argument, after),
        _ => Err(fault_at(FaultKind::ExpectedEnd, behind)),
    }
}

// The argument has a type, which is in front of the text.
fn typed_front<'p>(
    formats: Formats,
    argument: &'p [u8],
    name: &'p [u8],
    text: &'p [u8],
) -> Result<(Head<'p>, &'p [u8]), Fault>
    requires { length text.now ≤ length argument.now }
    ensures head { seen (λ x. (head_view x.0, x.1.now)) result ≡ typed_front formats argument.now name.now text.now }
    ensures shorter { IfOk result (λ x. length x.1.now ≤ length text.now) }
{
    if let Formats::Refused = formats {
        return choice_front(name, text);
    }
    let (word, rest) = split_run(Class::Letter, after_white(text));
    if is_simple_type(word) {
        simple_front(argument, after_white(rest))
    } else {
        choice_front(name, text)
    }
}

// What follows the name of an argument.
fn behind_name<'p>(
    formats: Formats,
    argument: &'p [u8],
    name: &'p [u8],
    text: &'p [u8],
) -> Result<(Head<'p>, &'p [u8]), Fault>
    requires { length text.now ≤ length argument.now }
    ensures head { seen (λ x. (head_view x.0, x.1.now)) result ≡ behind_name formats argument.now name.now text.now }
    ensures shorter { IfOk result (λ x. length x.1.now ≤ length text.now) }
{
    let [first, rest @ ..] = text else {
        return Err(unclosed());
    };
    match *first {
        b'}' => Ok((Head::Plain(name), rest)),
        b',' => typed_front(formats, argument, name, rest),
        _ => Err(fault_at(FaultKind::ExpectedEnd, text)),
    }
}

// The head of an argument, in front of the text.
pub(crate) fn head_front(formats: Formats, text: &[u8]) -> Result<(Head<'_>, &[u8]), Fault>
    ensures head { seen (λ x. (head_view x.0, x.1.now)) result ≡ head_front formats text.now }
    ensures shorter { IfOk result (λ x. length x.1.now ≤ length text.now) }
{
    let argument = after_white(text);
    let (name, rest) = name_front(argument)?;
    behind_name(formats, argument, name, rest)
}
