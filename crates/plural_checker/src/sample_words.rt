//! The samples that a rule's text lists.

ghost use Rattle.std.specs.Prelude.{◌≡◌, ◌∷◌, [], MatchOption};
ghost use Rattle.std.specs.List.{after_first, before_first, position_or_len, slice_split};
ghost use Rattle.plural_checker.specs.FirstSamples.{is_at, is_gap, is_tilde, sample_words};
ghost use Rattle.plural_checker.specs.Inner.SampleSteps.{is_marked, left_text_view, parts_left};

use std::marker::Model;

// What stands before samples, between them, and in a range.
#[derive(Clone, Copy)]
enum Mark {
    At,
    Gap,
    Range,
}

// Whether a byte is that of a mark.
fn is_marked(mark: Mark, byte: u8) -> bool
    ensures { result ≡ is_marked mark byte }
{
    match mark {
        Mark::At => byte == b'@',
        Mark::Gap => byte == b' ' || byte == b',',
        Mark::Range => byte == b'~',
    }
}

// Where the first mark of a kind stands, or the length.
fn place_of(mark: Mark, bytes: &[u8]) -> usize
    ensures { result ≡ position_or_len (is_marked mark) bytes.now }
{
    for index in 0..bytes.len() {
        if is_marked(mark, bytes[index]) {
            return index;
        }
    }
    bytes.len()
}

// What stands behind the first `@`.
fn listed(text: &[u8]) -> &[u8]
    ensures { result.now ≡ after_first is_at text.now }
{
    let place = place_of(Mark::At, text);
    if place < text.len() {
        return &text[place + 1..];
    }
    &[]
}

// What stands before the first gap, and behind it, if there is one.
fn cut_part(bytes: &[u8]) -> (&[u8], Option<&[u8]>)
    ensures { slice_split is_gap bytes.now ≡ result.0.now ∷ parts_left (left_text_view result.1) }
{
    let place = place_of(Mark::Gap, bytes);
    if place < bytes.len() {
        return (&bytes[..place], Some(&bytes[place + 1..]));
    }
    (bytes, None)
}

// The start of a range, or a single sample.
fn start_of(part: &[u8]) -> &[u8]
    ensures { result.now ≡ before_first is_tilde part.now }
{
    &part[..place_of(Mark::Range, part)]
}

// The samples that are left of a text. Contracts see their list.
#[derive(Drop)]
pub(crate) struct SampleWords<'t> {
    left: Option<&'t [u8]>,
}

impl<'t> Model for SampleWords<'t> {
    ghost use Rattle.std.specs.Prelude.{ℕ, List};
    ghost use Rattle.plural_checker.specs.Inner.SampleSteps.{left_text_view, words_left};

    ghost Value = { List (List ℕ) };

    ghost view = { λ words. words_left (left_text_view words.left) };
}

impl<'t> SampleWords<'t> {
    // Those of a text.
    pub(crate) fn of(text: &'t [u8]) -> SampleWords<'t>
        ensures { result ≡ sample_words text.now }
    {
        SampleWords {
            left: Some(listed(text)),
        }
    }

    // Takes the first one.
    pub(crate) fn next_word(&mut self) -> Option<&'t [u8]>
        ensures { MatchOption result ((self.old ≡ []) × (self.new ≡ [])) (λ word. self.old ≡ word.now ∷ self.new) }
    {
        let left = self.left?;
        let (part, after) = cut_part(left);
        self.left = after;
        Some(start_of(part))
    }
}
