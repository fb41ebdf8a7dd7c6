//! Samples that are left out, by their bytes (UTS 35 Part 3, Samples).

ghost use Rattle.std.specs.Prelude.{◌≡◌, ◌≤◌, ◌<◌, ◌∷◌, ◌++◌, List, length, IfSome, IsTrue};
ghost use Rattle.plural_reference.specs.declared.ast.SampleRange.{SampleRange};
ghost use Rattle.plural_reference.specs.declared.token.Token.{Token};
ghost use Rattle.plural_reference.specs.declared.token.Token.TheVariants.{At};
ghost use Rattle.plural_reference.specs.Samples.{IsExponent, IsSampleRange};
ghost use Rattle.plural_reference.specs.Inner.Scan.{tokens_of};
ghost use Rattle.plural_reference.specs.Inner.SampleReading.PlainSamples.{HasRun, HasShortRun, Begins, BeginsWithDigit, IsRun, IsNumber, IsType, AreLists, IsListThenLists, FollowsComma, LeadsTo, bytes_left};

// Where the walk over samples is.
#[derive(Clone, Copy)]
enum Next<'s> {
    // Before a sample.
    Sample(&'s [u8]),
    // Behind the last sample, at the end of the text.
    End,
    // Before what isn't plain samples.
    Other,
}

// Whether the text, which stands behind At, is samples to its end, and plain ones: spaced as CLDR
// spaces them, and with at most 9 digits in a row. What else samples may be is left to the parser.
pub(super) fn are_plain(text: &[u8]) -> bool
    ensures { IsTrue result → AreLists (At ∷ tokens_of text.now) }
{
    let mut next = list_front(text);
    'samples: while let Next::Sample(rest) = next {
        next = behind_sample(rest);
    }
    match next {
        Next::End => true,
        _ => false,
    }
}

// What stands behind At: the type of a list, and its first sample, which begins with a digit.
fn list_front(text: &[u8]) -> Next<'_>
    ensures leads { LeadsTo (AreLists (At ∷ tokens_of text.now)) result }
    ensures shorter { bytes_left result ≤ length text.now }
{
    match behind_type(text) {
        Some(list) if begins_with_digit(list) => Next::Sample(list),
        _ => Next::Other,
    }
}

// The bytes behind a type and a space.
#[inline]
fn behind_type(text: &[u8]) -> Option<&[u8]>
    ensures kind { IfSome result (λ rest. Begins IsType text.now rest.now) }
    ensures shorter { IfSome result (λ rest. length rest.now < length text.now) }
{
    match text {
        [b'i', b'n', b't', b'e', b'g', b'e', b'r', b' ', rest @ ..] => Some(rest),
        [b'd', b'e', b'c', b'i', b'm', b'a', b'l', b' ', rest @ ..] => Some(rest),
        _ => None,
    }
}

// Whether the first byte is a digit.
#[inline]
fn begins_with_digit(text: &[u8]) -> bool
    ensures { IsTrue result → BeginsWithDigit text.now }
{
    match text {
        [first, ..] => first.is_ascii_digit(),
        [] => false,
    }
}

// What stands behind a sample that begins here, or behind an ellipsis.
#[inline]
fn behind_sample(text: &[u8]) -> Next<'_>
    ensures leads { LeadsTo (FollowsComma (tokens_of text.now)) result }
    ensures shorter { bytes_left result ≤ length text.now }
{
    let Some(number) = behind_number(text) else {
        return behind_ellipsis(text);
    };
    match number {
        [b',', b' ', next @ ..] => Next::Sample(next),
        _ => behind_range(number),
    }
}

// What stands behind an ellipsis: further lists, or the end.
#[inline]
fn behind_ellipsis(text: &[u8]) -> Next<'_>
    ensures leads { LeadsTo (FollowsComma (tokens_of text.now)) result }
    ensures shorter { bytes_left result ≤ length text.now }
{
    let [0xe2, 0x80, 0xa6, rest @ ..] = text else {
        return Next::Other;
    };
    next_list(rest)
}

// What stands behind a range of samples whose first number stands before the text.
#[inline]
fn behind_range(text: &[u8]) -> Next<'_>
    ensures leads { (n : List Token) → IsNumber n → LeadsTo (IsListThenLists (n ++ tokens_of text.now)) result }
    ensures shorter { bytes_left result ≤ length text.now }
{
    let Some(lower) = behind_exponent(text) else {
        return Next::Other;
    };
    let [b'~', upper @ ..] = lower else {
        return range_end(lower);
    };
    let Some(number) = behind_number(upper) else {
        return Next::Other;
    };
    let Some(rest) = behind_exponent(number) else {
        return Next::Other;
    };
    range_end(rest)
}

// What stands behind a range: a comma and a sample, further lists, or the end.
fn range_end(text: &[u8]) -> Next<'_>
    ensures leads { (r : List Token) (x : SampleRange) → IsSampleRange r x → LeadsTo (IsListThenLists (r ++ tokens_of text.now)) result }
    ensures shorter { bytes_left result ≤ length text.now }
{
    match text {
        [b',', b' ', next @ ..] => Next::Sample(next),
        _ => next_list(text),
    }
}

// What stands behind a list: a further one, or the end.
fn next_list(text: &[u8]) -> Next<'_>
    ensures leads { LeadsTo (AreLists (tokens_of text.now)) result }
    ensures shorter { bytes_left result ≤ length text.now }
{
    match text {
        [] => Next::End,
        [b' ', b'@', list @ ..] => list_front(list),
        _ => Next::Other,
    }
}

// The bytes behind a number: digits, and a point and digits or none.
#[inline]
fn behind_number(text: &[u8]) -> Option<&[u8]>
    ensures number { IfSome result (λ rest. Begins IsNumber text.now rest.now) }
    ensures shorter { IfSome result (λ rest. length rest.now < length text.now) }
{
    let whole = behind_digits(text)?;
    match whole {
        [b'.', fraction @ ..] => behind_digits(fraction),
        _ => Some(whole),
    }
}

// The bytes behind an exponent or none. Its digits are one token, which doesn't begin with 0.
#[inline]
fn behind_exponent(text: &[u8]) -> Option<&[u8]>
    ensures exponent { IfSome result (λ rest. Begins IsExponent text.now rest.now) }
    ensures shorter { IfSome result (λ rest. length rest.now ≤ length text.now) }
{
    match text {
        [b'e', digits @ ..] => behind_one_run(digits),
        [b'c', digits @ ..] => behind_one_run(digits),
        _ => Some(text),
    }
}

// The bytes behind 1 to 9 digits, of which the first isn't 0.
fn behind_one_run(text: &[u8]) -> Option<&[u8]>
    ensures run { IfSome result (λ rest. Begins IsRun text.now rest.now) }
    ensures shorter { IfSome result (λ rest. length rest.now < length text.now) }
{
    match text {
        [first, ..] if *first != b'0' => behind_digits(text),
        _ => None,
    }
}

// The bytes behind all digits at the front, if they are 1 to 9.
#[inline]
fn behind_digits(text: &[u8]) -> Option<&[u8]>
    ensures digits { IfSome result (λ rest. HasShortRun text.now rest.now) }
    ensures shorter { IfSome result (λ rest. length rest.now < length text.now) }
{
    let rest = behind_run(text);
    let count = text.len() - rest.len();
    if count != 0 && count < 10 {
        Some(rest)
    } else {
        None
    }
}

// The bytes behind all digits at the front.
#[inline]
fn behind_run(text: &[u8]) -> &[u8]
    ensures { HasRun text.now result.now }
{
    let mut rest = text;
    'digits: while let [digit, after @ ..] = rest {
        if !digit.is_ascii_digit() {
            return rest;
        }
        rest = after;
    }
    rest
}
