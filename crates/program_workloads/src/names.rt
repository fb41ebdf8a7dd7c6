//! Names that aren't in CLDR's document.

use crate::random::Source;
use std::alloc::AllocError;

// Appends a number's name of eight letters and digits, of which no two are the same in one document.
pub(crate) fn push_name(
    text: &mut String,
    source: &mut Source,
    number: u64,
) -> Result<(), AllocError> {
    const LETTERS: &[&str] = &[
        "a", "b", "c", "d", "e", "f", "g", "h", "k", "m", "n", "p", "r", "s", "t", "x",
    ];
    text.push_str(source.one_of(LETTERS))?;
    let mut rest = number;
    for _ in 0..6 {
        text.push_str(match rest % 10 {
            0 => "0",
            1 => "1",
            2 => "2",
            3 => "3",
            4 => "4",
            5 => "5",
            6 => "6",
            7 => "7",
            8 => "8",
            _ => "9",
        })?;
        rest /= 10;
    }
    text.push_str(source.one_of(LETTERS))
}
