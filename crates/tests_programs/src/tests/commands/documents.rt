//! A document, and how far it is read.

use crate::tests::assertion::holds;
use crate::tests::commands::answers::gives;

// Rules of two locales, ranges of one, and elements.
pub(crate) const DOCUMENT: &[u8] =
    br#"{"cardinal":{"a":{"one":"i = 1 and v = 0","other":"@integer 0, 2~16"},
             "b":{"one":"i = 1"}},
 "ordinal":{"a":{"one":"n % 10 = 1 and n % 100 != 11",
                 "two":"n % 10 = 2 and n % 100 != 12",
                 "few":"n % 10 = 3 and n % 100 != 13"}},
 "ranges":{"a":{"ranges":{"other--one":"few"}}},
 "elements":{"other":[0,"items"],"one":[0,"item"],"explicit_zero":[3,"none"]}}
"#;

#[test]
fn the_input_is_read_to_its_end(rt: HostRuntime) {
    let mut reader = DOCUMENT;
    let print = ["print", "b", "cardinal"];
    holds!(rt; gives(rt.alloc(), &print, &mut reader, "one: i = 1\n") == Some(true));
    holds!(rt; reader.is_empty());
    let mut reader = DOCUMENT;
    let test = ["test", "i = 1", "1"];
    holds!(rt; gives(rt.alloc(), &test, &mut reader, "true\n") == Some(true));
    holds!(rt; reader.len() == DOCUMENT.len());
}
