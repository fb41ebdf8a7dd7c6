//! The parts of a rule that print themselves, one after another or after a prefix.
#![tactic(auto, using(crate::proofs::printing::Writes::one_call, crate::proofs::printing::Writes::then_writes))]

ghost use Rattle.std.specs.Prelude.{◌≡◌, ◌==◌, ℕ, List, [], OnOk, if◌then◌else◌};
ghost use Rattle.std.specs.Option.{option_copied};
ghost use Rattle.std.specs.Fmt.{WritesInCalls};
ghost use Rattle.plural_reference.specs.Serializer.{joined, prefixed};

use std::fmt;

// A part of a rule, with its printed text.
pub(super) trait Part {
    ghost text: { Self → List ℕ };

    fn write_to<W: fmt::Write>(&self, w: &mut W) -> fmt::Result
        ensures { OnOk result (WritesInCalls W.write_str_gives w.old (text self.now) w.new) };
}

// The parts, with the separator between neighbours.
// Inlined, as all below, it writes the separators as constants: a tenth of the instructions less.
#[inline(always)]
pub(super) fn serialize_joined<P: Part, W: fmt::Write>(
    parts: &[P],
    separator: &str,
    w: &mut W,
) -> fmt::Result
    ensures { OnOk result (WritesInCalls W.write_str_gives w.old (joined separator.now P.text parts.now) w.new) }
{
    for (index, part) in parts.iter().enumerate() {
        write_before(index, separator, w)?;
        part.write_to(w)?;
    }
    Ok(())
}

// What comes before the part at an index: the separator, but nothing before the first one.
#[inline(always)]
fn write_before<W: fmt::Write>(index: usize, separator: &str, w: &mut W) -> fmt::Result
    ensures { OnOk result (WritesInCalls W.write_str_gives w.old (if index == 0 then [] else separator.now) w.new) }
{
    if index == 0 {
        return Ok(());
    }
    w.write_str(separator)
}

// The prefix and then the part, if there is one.
#[inline(always)]
pub(super) fn serialize_prefixed<P: Part, W: fmt::Write>(
    prefix: &str,
    part: Option<&P>,
    w: &mut W,
) -> fmt::Result
    ensures { OnOk result (WritesInCalls W.write_str_gives w.old (prefixed prefix.now P.text (option_copied part.entry)) w.new) }
{
    if let Some(part) = part {
        w.write_str(prefix)?;
        part.write_to(w)?;
    }
    Ok(())
}
