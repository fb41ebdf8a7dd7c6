//! The first byte of a packed relation.

ghost use Rattle.std.specs.Prelude.{◌≡◌, ◌↔◌, ◌≤◌, ◌%◌, IfSome, IsSome, Some, option_map};
ghost use Rattle.plural_runtime.specs.RuleKinds.{byte_of, operator_of, tree_operand_of};
ghost use Rattle.plural_runtime.specs.Inner.RuleReading.{and_or_in, operand_in, operand_numbered, operator_in};

use crate::kinds::{AndOr, Operand, Polarity};

/// The meaning of a relation's first byte: bit 7 is 1 for And, bit 6 is 1 for Positive, and bits 0
/// to 5 number the operand, from 0 for N to 7 for E.
///
/// <!-- snippet crates/tests_libraries/src/tests/plural_runtime_examples.rt:
/// example "let parts"
/// to "holds!(rt; AndOrPolarityOperand::from_unaligned(0xc8)" of fn first_bytes_and_ranges_have_their_layout -->
/// ```
/// let parts = AndOrPolarityOperand {
///     and_or: AndOr::And,
///     polarity: Polarity::Positive,
///     operand: Operand::N,
/// };
/// assert!(rt; parts.to_unaligned() == 0xc0);
/// assert!(rt; AndOrPolarityOperand::from_unaligned(0xc0) == Some(parts));
/// assert!(rt; AndOrPolarityOperand::from_unaligned(0xc8) == None);
/// ```
#[derive(Clone, Copy, Debug, PartialEq, Eq)]
pub struct AndOrPolarityOperand {
    /// How the relation is joined to the previous one.
    pub and_or: AndOr,
    /// Whether the value has to be in the list.
    pub polarity: Polarity,
    /// Which operand it tests.
    pub operand: Operand,
}

impl AndOrPolarityOperand {
    /// Returns the three as one byte.
    pub fn to_unaligned(self) -> u8
        ensures { result ≡ byte_of self }
    {
        let and_or = match self.and_or {
            AndOr::Or => 0,
            AndOr::And => 128,
        };
        let polarity = match self.polarity {
            Polarity::Negative => 0,
            Polarity::Positive => 64,
        };
        and_or + polarity + self.operand as u8
    }

    /// Returns the three of a byte, or `None` unless its bits 0 to 5 number an operand.
    pub fn from_unaligned(byte: u8) -> Option<AndOrPolarityOperand>
        ensures parts { IfSome result (λ parts. byte ≡ byte_of parts) }
        ensures found { (parts : AndOrPolarityOperand) → byte ≡ byte_of parts → result ≡ Some parts }
    {
        let operand = operand_of(byte)?;
        Some(AndOrPolarityOperand {
            and_or: and_or_of(byte),
            polarity: polarity_of(byte),
            operand,
        })
    }
}

// The meaning of bit 7 of a byte.
#[inline]
pub(crate) fn and_or_of(byte: u8) -> AndOr
    ensures { result ≡ and_or_in byte }
{
    if byte < 128 { AndOr::Or } else { AndOr::And }
}

// The meaning of bit 6.
#[inline]
pub(crate) fn polarity_of(byte: u8) -> Polarity
    ensures { operator_of result ≡ operator_in byte }
{
    if byte % 128 < 64 {
        Polarity::Negative
    } else {
        Polarity::Positive
    }
}

// The meaning of bits 0 to 5.
#[inline]
pub(crate) fn operand_of(byte: u8) -> Option<Operand>
    ensures operand { option_map tree_operand_of result ≡ operand_in byte }
    ensures known { IsSome result ↔ (byte % 64 ≤ 7) }
{
    Some(match byte % 64 {
        0 => Operand::N,
        1 => Operand::I,
        2 => Operand::V,
        3 => Operand::W,
        4 => Operand::F,
        5 => Operand::T,
        6 => Operand::C,
        7 => Operand::E,
        _ => return None,
    })
}

// The operand with a number. Of three bits, it needs no test.
#[inline]
pub(crate) fn operand_numbered(number: u8) -> Operand
    requires { number ≤ 7 }
    ensures { operand_numbered number ≡ Some (tree_operand_of result) }
{
    match number {
        0 => Operand::N,
        1 => Operand::I,
        2 => Operand::V,
        3 => Operand::W,
        4 => Operand::F,
        5 => Operand::T,
        6 => Operand::C,
        _ => Operand::E,
    }
}
