//! The numbers of JSON texts.

ghost use Rattle.std.specs.Prelude.{◌≡◌, option_map};
ghost use Rattle.fast_float.specs.Text.{scan};
ghost use Rattle.serde_json.specs.Read.{number_from, number_of};
ghost use Rattle.serde_json.specs.View.{number_view};

use fast_float::Numeral;
use serde_json::Number;

// The number that a text of JSON writes, as `serde_json` reads it, unless it is too large.
#[inline(always)]
pub(crate) fn json_number(text: &str) -> Option<Number>
    ensures { option_map number_view result ≡ number_of text.now }
{
    let bytes = text.as_bytes();
    if bytes.starts_with(b"-") {
        signed_number(true, &bytes[1..])
    } else {
        signed_number(false, bytes)
    }
}

// The number of this size, or below zero. One without a point or an exponent that fits 64 bits is
// an integer, except `-0`, and another one a float.
#[inline(always)]
fn signed_number(is_negative: bool, size: &[u8]) -> Option<Number>
    ensures { option_map number_view result ≡ number_from is_negative (scan size.now) }
{
    let numeral = Numeral::scan(size);
    if !is_negative {
        if let Some(integer) = numeral.to_u64() {
            return Some(Number::from(integer));
        }
    } else if let Some(integer @ ..=-1) = numeral.to_i64(true) {
        return Some(Number::from(integer));
    }
    Number::from_f64(numeral.to_float::<f64>(is_negative))
}
