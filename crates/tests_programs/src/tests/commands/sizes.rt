//! A long document and a long line, read and written in pieces.

use crate::tests::assertion::holds;
use crate::tests::pieces::Pieces;
use plural_commands::run::run;
use std::alloc::{AllocError, Global};
use std::test::Fail;

// Returns a start, the text this many times, and an end.
fn repeated(
    alloc: Global,
    start: &str,
    text: &str,
    count: usize,
    end: &str,
) -> Result<String, AllocError> {
    let mut all = String::from_str(alloc, start)?;
    for _ in 0..count {
        all.push_str(text)?;
    }
    all.push_str(end)?;
    Ok(all)
}

#[test]
fn a_line_of_129000_bytes_is_written_whole(rt: HostRuntime) -> Result<(), Fail> {
    let alloc = rt.alloc();
    let start = r#"{"cardinal":{"a":{}},"elements":{"other":[0,""#;
    let document = repeated(alloc, start, "{} ", 43_000, r#""]}}"#)?;
    let document = document.as_str().as_bytes();
    for (command, text) in [("select", "{} "), ("message", "12 ")] {
        let line = repeated(alloc, "", text, 43_000, "\n")?;
        let line = line.as_str().as_bytes();
        for most in [1usize, 4095, 4096, 1_000_000] {
            let mut reader = Pieces::of(document, most);
            let mut writer = Pieces::of(line, most);
            let words = [command, "a", "cardinal", "12"];
            let answer = run(alloc, &words, &mut reader, &mut writer);
            holds!(rt; answer.is_ok() && reader.is_done() && writer.is_done(), at most);
        }
    }
    Ok(())
}
