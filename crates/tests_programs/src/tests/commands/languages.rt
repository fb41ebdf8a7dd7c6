//! Conditions from CLDR, against the categories that its samples show.

use crate::tests::assertion::holds;
use crate::tests::commands::answers::gives;
use crate::tests::input::Input;
use std::alloc::{AllocError, Global};
use std::test::Fail;

// Whether the condition is true of just these integers from 0 to 130.
fn is_true_of_just(alloc: Global, condition: &str, integers: &[u8]) -> Result<bool, AllocError> {
    for integer in 0u8..=130 {
        let word = integer.to_string(alloc)?;
        let wanted = if integers.contains(&integer) {
            "true\n"
        } else {
            "false\n"
        };
        let words = ["test", condition, word.as_str()];
        if gives(alloc, &words, &mut Input::failing(), wanted) != Some(true) {
            return Ok(false);
        }
    }
    Ok(true)
}

const FEW: [u8; 33] = [
    2, 3, 4, 22, 23, 24, 32, 33, 34, 42, 43, 44, 52, 53, 54, 62, 63, 64, 72, 73, 74, 82, 83, 84,
    92, 93, 94, 102, 103, 104, 122, 123, 124,
];

#[test]
fn english_polish_and_russian_conditions(rt: HostRuntime) -> Result<(), Fail> {
    let rows: [(&str, &[u8]); 3] = [
        ("i = 1 and v = 0", &[1]),
        (
            "v = 0 and i % 10 = 1 and i % 100 != 11",
            &[1, 21, 31, 41, 51, 61, 71, 81, 91, 101, 121],
        ),
        ("v = 0 and i % 10 = 2..4 and i % 100 != 12..14", &FEW),
    ];
    for (condition, integers) in rows {
        holds!(rt; is_true_of_just(rt.alloc(), condition, integers)?, condition);
    }
    Ok(())
}
