//! Packed rules: writers that refuse a piece of a printed rule.

use crate::tests::assertion::holds;
use plural_runtime::Rule;
use std::fmt;
use std::fmt::Write;

// Conditions of CLDR as bytes and as texts: Bengali's ordinal one, Russian's few and French many.
const CLDR_RULES: [(&[u8], &str); 3] = [
    (
        b"\x01\0\xc0\0\0\0\0\
\x01\0\0\0\x01\0\0\0\x05\0\0\0\x05\0\0\0\x07\0\0\0\x07\0\0\0\
\x08\0\0\0\x08\0\0\0\x09\0\0\0\x09\0\0\0\x0a\0\0\0\x0a\0\0\0",
        "n = 1, 5, 7, 8, 9, 10",
    ),
    (
        b"\x03\0\x0d\0\x1a\0\
\xc2\0\0\0\0\0\0\0\0\0\0\0\0\
\xc1\x0a\0\0\0\x02\0\0\0\x04\0\0\0\
\x81\x64\0\0\0\x0c\0\0\0\x0e\0\0\0",
        "v = 0 and i % 10 = 2..4 and i % 100 != 12..14",
    ),
    (
        b"\x05\0\x0d\0\x1a\0\x27\0\x34\0\
\xc7\0\0\0\0\0\0\0\0\0\0\0\0\
\x81\0\0\0\0\0\0\0\0\0\0\0\0\
\xc1\x40\x42\x0f\0\0\0\0\0\0\0\0\0\
\xc2\0\0\0\0\0\0\0\0\0\0\0\0\
\x07\0\0\0\0\0\0\0\0\x05\0\0\0",
        "e = 0 and i != 0 and i % 1000000 = 0 and v = 0 or e != 0..5",
    ),
];

// Takes the first pieces of a text, and refuses all after them.
#[derive(Drop)]
struct Refusing<'t> {
    awaited: &'t str,
    pieces: usize,
    refused: usize,
}

impl<'t> Write for Refusing<'t> {
    fn write_str(&mut self, s: &str) -> fmt::Result {
        if self.pieces == 0 {
            self.refused = self.refused.saturating_add(1);
            return Err(fmt::Error);
        }
        self.pieces -= 1;
        self.awaited = self.awaited.strip_prefix(s).ok_or(fmt::Error)?;
        Ok(())
    }
}

// Printing stops at the refused piece, and what was taken begins the text. No text here has 100
// pieces.
#[test]
fn printing_stops_at_the_refused_piece(rt: HostRuntime) {
    for (bytes, text) in CLDR_RULES {
        let rule = Rule::parse_bytes(bytes).expect(&rt, "a rule");
        let mut whole = 0_u64;
        for pieces in 0..100 {
            let mut writer = Refusing {
                awaited: text,
                pieces,
                refused: 0,
            };
            let done = write!(writer, "{rule}").is_ok();
            let refused = writer.refused;
            holds!(rt; done == writer.awaited.is_empty(), text);
            holds!(rt; done && refused == 0 || !done && refused == 1, text);
            if done {
                whole = whole.wrapping_add(1);
            }
        }
        holds!(rt; whole > 0 && whole < 100, text);
    }
}
