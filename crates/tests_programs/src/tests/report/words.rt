//! The arguments of the command line.

use crate::tests::assertion::holds;
use crate::tests::line::Line;
use document_report::arguments::is_argument;
use std::rt::Env;

#[test]
fn whatever_stands_after_the_name_is_a_word(rt: HostRuntime) {
    let rows: [(&[&[u8]], bool); 6] = [
        (&[], false),
        (&[b"plurals_check"], false),
        (&[b"\xff"], false),
        (&[b"plurals_check", b""], true),
        (&[b"plurals_check", b"a"], true),
        (&[b"plurals_check", b"cldr.json", b"\xff"], true),
    ];
    for (arguments, answer) in rows {
        let first = Line { arguments }.arg(1, &mut [0u8; 1]);
        holds!(rt; is_argument(first) == answer, at arguments.len());
    }
}
