//! Numbers that are written plainly, which choose the branch of their value at sight.

ghost use Rattle.std.specs.Prelude.{◌≤◌, ◌<◌, length, IfSome, IfNone};
ghost use Rattle.fixed_decimal.specs.Places.{IsWithinLimit};
ghost use Rattle.fixed_decimal.specs.PlainNumbers.{IsPlain};
ghost use Rattle.fixed_decimal.specs.Written.{CompactNumber, WritesCompact};

use crate::source::Chooser;
use fixed_decimal::PlainNumber;
use message_pattern::Selector;
use plural_operands::KEPT_PLACES;
use std::marker::Model;

/// A number that a short text writes plainly. It chooses the branch of its value, where a look at
/// the digits tells.
#[derive(Drop)]
pub struct Plain<'s>(PlainNumber<'s>);

impl<'s> Model for Plain<'s> {
    ghost use Rattle.fixed_decimal.specs.Written.{CompactNumber};

    ghost Value = { CompactNumber };

    ghost view = { λ plain. plain.0 };
}

impl<'s> Plain<'s> {
    /// Returns the plain number of a text that is so short that its operands are read in one walk,
    /// without memory: of at most 18 bytes.
    #[inline(always)]
    pub fn of(text: &'s [u8]) -> Option<Plain<'s>>
        ensures number { IfSome result (λ plain. WritesCompact text.now plain × IsWithinLimit plain.significand.absolute × (plain.exponent ≤ 255)) }
        ensures none { IfNone result ((x : CompactNumber) → IsPlain text.now x → 18 < length text.now) }
    {
        if text.len() > KEPT_PLACES {
            return None;
        }
        Some(Plain(PlainNumber::of(text)?))
    }
}

/// A selector that has to be read as a number.
#[derive(Clone, Copy, Debug)]
pub struct Unread;

impl<'s> Chooser for Plain<'s> {
    ghost use Rattle.message_format.specs.FormatBranches.{Equals};

    type Stop = Unread;

    ghost IsReady = { λ _. Unit {0} };

    ghost IsChosen = { Equals };

    #[inline(always)]
    fn chooses(&self, selector: Selector<'_>) -> Result<bool, Unread> {
        match selector {
            Selector::Exactly(written) => self.0.same_value(written).ok_or(Unread),
            Selector::Keyword(_) => Ok(false),
        }
    }
}
