//! A sample of a rule's text.

ghost use Rattle.std.specs.Prelude.{◌≡◌, MatchOption};
ghost use Rattle.plural_checker.specs.FirstSamples.{IsShortWord, kept_sample, kept_sample_text, shown};

use std::str;

// The most bytes of a sample.
const MOST_SAMPLE_BYTES: usize = 16;

/// A sample of a rule's text, as it is written there: `1000000`, `1c6`.
#[derive(Clone, Copy, Debug, PartialEq, Eq)]
pub struct Sample {
    count: u8,
    bytes: [u8; 16],
}

impl Sample {
    // The sample that bytes write, if they are a short text.
    pub(crate) fn of(word: &[u8]) -> Option<Sample>
        ensures { MatchOption result (¬ (IsShortWord word.now)) (λ sample. (sample ≡ kept_sample word.now) × IsShortWord word.now) }
    {
        if word.len() > MOST_SAMPLE_BYTES {
            return None;
        }
        match str::from_utf8(word) {
            Ok(_) => Some(Sample::of_short(word)),
            Err(_) => None,
        }
    }

    // The sample that a short text writes.
    fn of_short(word: &[u8]) -> Sample
        requires { IsShortWord word.now }
        ensures { result ≡ kept_sample word.now }
    {
        let mut bytes = [0; MOST_SAMPLE_BYTES];
        bytes[..word.len()].copy_from_slice(word);
        Sample {
            count: word.len() as u8,
            bytes,
        }
    }

    /// Returns its text.
    pub fn as_str(&self) -> &str
        ensures { result.now ≡ kept_sample_text self.now }
    {
        let count = usize::from(self.count);
        if count > MOST_SAMPLE_BYTES {
            return "";
        }
        shown(&self.bytes[..count])
    }
}

// The text that bytes are, or an empty one.
fn shown(bytes: &[u8]) -> &str
    ensures { result.now ≡ shown bytes.now }
{
    match str::from_utf8(bytes) {
        Ok(text) => text,
        Err(_) => "",
    }
}
