//! The words of the command line.

use crate::tests::assertion::holds;
use crate::tests::line::Line;
use plural_commands::RunError;
use plural_commands::arguments::arguments;

#[test]
fn only_the_words_after_the_name_are_texts(rt: HostRuntime) {
    // The arguments, and the count of words; `None` if one isn't UTF-8.
    let rows: [(&[&[u8]], Option<usize>); 6] = [
        (&[], Some(0)),
        (&[b"plurals"], Some(0)),
        (&[b"bin/\xff", b"print", b"a"], Some(2)),
        (&[b"plurals", b"\xff"], None),
        (&[b"plurals", b"print", b"\xc3"], None),
        (&[b"\xff", b"\xff"], None),
    ];
    for (given, count) in rows {
        match arguments(rt.alloc(), &Line { arguments: given }) {
            Ok(words) => {
                holds!(rt; Some(words.len()) == count, at count);
                holds!(rt; words.iter().zip(given.iter().skip(1)).all(|(word, bytes)| word.as_bytes() == *bytes), at count);
            }
            Err(fault) => holds!(rt; count.is_none() && matches!(&fault, RunError::Usage)),
        }
    }
}
