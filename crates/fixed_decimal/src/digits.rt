//! Runs of digits: in a text, how long they may be, and the number that a few of them write.

ghost use Rattle.std.specs.Prelude.{◌≡◌, ◌≤◌, ◌<◌, length, slice_index};
ghost use Rattle.fixed_decimal.specs.Digits.{AreDigits, value_of};
ghost use Rattle.fixed_decimal.specs.Inner.TextParts.{AreDigitBytes, IsDigitByte};

// The most places on one side of the point.
pub(crate) const MOST_PLACES: u16 = 32767;

// Returns the end of the run of digits from an index on.
#[inline]
pub(crate) fn run_end(text: &[u8], from: usize) -> usize
    requires { from ≤ length text.now }
    ensures least { from ≤ result }
    ensures most { result ≤ length text.now }
    ensures digits { AreDigitBytes text.now from result }
    ensures end { result < length text.now → ¬ (IsDigitByte (slice_index text.now result)) }
{
    let mut at = from;
    while at < text.len() && text[at].is_ascii_digit() {
        at += 1;
    }
    at
}

// Returns the number that at most 18 digits write. They are mostly few: inlined, the unrolled loop
// took longer to begin than to run.
#[inline(never)]
pub(crate) fn number_of_digits(digits: &[u8]) -> u64
    requires digits { AreDigits digits.now }
    requires few { length digits.now ≤ 18 }
    ensures { result ≡ value_of digits.now }
{
    let mut number = 0;
    for digit in digits {
        number = number * 10 + u64::from(*digit);
    }
    number
}
