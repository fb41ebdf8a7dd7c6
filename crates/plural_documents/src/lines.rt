//! A line for each of a list of things.

ghost use Rattle.std.specs.Prelude.{◌≡◌, ◌++◌, OnOk, map, string_bytes};
ghost use Rattle.std.specs.List.{flat_map};

use std::alloc::{AllocError, Global};

/// A way to print the line of a thing.
pub trait LinePrinter<T> {
    ghost use Rattle.std.specs.Prelude.{◌≡◌, ◌++◌, List, ℕ, OnOk, string_bytes};

    // What a line is printed for, of a thing.
    ghost Seen: { Type 0 };

    ghost seen: { T → Seen };

    // Its line.
    ghost line_of: { Self → Seen → List ℕ };

    /// Appends the line. It allocates; the only error is out of memory.
    fn push(&mut self, alloc: Global, thing: &T, text: &mut String) -> Result<(), AllocError>
        ensures line { OnOk result (string_bytes text.new ≡ string_bytes text.old ++ line_of self.old (seen thing.now)) }
        ensures same { OnOk result (line_of self.new ≡ line_of self.old) };
}

/// Appends the line of each thing. It allocates; the only error is out of memory.
pub fn push_lines<T, P: LinePrinter<T>>(
    alloc: Global,
    printer: &mut P,
    things: &[T],
    text: &mut String,
) -> Result<(), AllocError>
    ensures { OnOk result (string_bytes text.new ≡ string_bytes text.old ++ flat_map (P.line_of printer.old) (map P.seen things.now)) }
{
    for thing in things {
        printer.push(alloc, thing, text)?;
    }
    Ok(())
}
