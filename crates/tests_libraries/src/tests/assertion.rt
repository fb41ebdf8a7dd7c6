//! An assertion for tests: it prints its condition and the row of a table, and is proved in a
//! fraction of the time that `assert_eq!` takes.

ghost use Rattle.std.specs.Prelude.{IsTrue};

use std::fmt::Debug;
use std::process::Abort;

/// Ends the test and prints the condition and the row, unless the condition holds.
pub fn fail_unless(rt: &impl Abort, holds: bool, condition: &str, row: &str)
    ensures { IsTrue holds }
{
    assert!(rt; holds, "{row}: {condition}");
}

/// [`fail_unless`] for a row that isn't named by a text.
pub fn fail_unless_at(rt: &impl Abort, holds: bool, condition: &str, row: &impl Debug)
    ensures { IsTrue holds }
{
    assert!(rt; holds, "{row:?}: {condition}");
}

macro_rules! holds {
    ($rt:expr; $condition:expr) => {
        crate::tests::assertion::fail_unless(&$rt, $condition, stringify!($condition), "")
    };
    ($rt:expr; $condition:expr, at $row:expr) => {
        crate::tests::assertion::fail_unless_at(&$rt, $condition, stringify!($condition), &$row)
    };
    ($rt:expr; $condition:expr, $row:expr) => {
        crate::tests::assertion::fail_unless(&$rt, $condition, stringify!($condition), $row)
    };
}

pub(crate) use holds;
