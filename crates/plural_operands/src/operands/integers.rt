//! The operands of integers.

ghost use Rattle.std.specs.Prelude.{◌≡◌, nat_abs};
ghost use Rattle.plural_operands.specs.Operands.{of_whole, of_wide};

use crate::operands::PluralOperands;
use crate::operands::kept::KEPT_LIMIT;

/// `i` is the number.
impl From<u8> for PluralOperands {
    ghost from_gives = { λ n o. o ≡ of_whole n };

    #[inline]
    fn from(number: u8) -> PluralOperands {
        PluralOperands::from(number as u64)
    }
}

/// `i` is the number.
impl From<u16> for PluralOperands {
    ghost from_gives = { λ n o. o ≡ of_whole n };

    #[inline]
    fn from(number: u16) -> PluralOperands {
        PluralOperands::from(number as u64)
    }
}

/// `i` is the number.
impl From<u32> for PluralOperands {
    ghost from_gives = { λ n o. o ≡ of_whole n };

    #[inline]
    fn from(number: u32) -> PluralOperands {
        PluralOperands::from(number as u64)
    }
}

/// `i` is the number, also from `10^18` on.
impl From<u64> for PluralOperands {
    ghost from_gives = { λ n o. o ≡ of_whole n };

    #[inline]
    fn from(number: u64) -> PluralOperands {
        PluralOperands {
            i: number,
            v: 0,
            w: 0,
            f: 0,
            t: 0,
            c: 0,
        }
    }
}

/// `i` is the number, also from `10^18` on.
impl From<usize> for PluralOperands {
    ghost from_gives = { λ n o. o ≡ of_whole n };

    #[inline]
    fn from(number: usize) -> PluralOperands {
        PluralOperands::from(number as u64)
    }
}

/// The operands of the number below `10^18`; from there on `i` is its last 18 digits plus `10^18`.
impl From<u128> for PluralOperands {
    ghost from_gives = { λ n o. o ≡ of_wide n };

    #[inline]
    fn from(number: u128) -> PluralOperands {
        let i = if number < KEPT_LIMIT as u128 {
            number as u64
        } else {
            (number % KEPT_LIMIT as u128) as u64 + KEPT_LIMIT
        };
        PluralOperands::from(i)
    }
}

/// The operands of the absolute value: the sign has no effect.
impl From<i8> for PluralOperands {
    ghost from_gives = { λ z o. o ≡ of_whole (nat_abs z) };

    #[inline]
    fn from(number: i8) -> PluralOperands {
        PluralOperands::from(number.unsigned_abs())
    }
}

/// The operands of the absolute value: the sign has no effect.
impl From<i16> for PluralOperands {
    ghost from_gives = { λ z o. o ≡ of_whole (nat_abs z) };

    #[inline]
    fn from(number: i16) -> PluralOperands {
        PluralOperands::from(number.unsigned_abs())
    }
}

/// The operands of the absolute value: the sign has no effect.
impl From<i32> for PluralOperands {
    ghost from_gives = { λ z o. o ≡ of_whole (nat_abs z) };

    #[inline]
    fn from(number: i32) -> PluralOperands {
        PluralOperands::from(number.unsigned_abs())
    }
}

/// The operands of the absolute value: the sign has no effect.
impl From<i64> for PluralOperands {
    ghost from_gives = { λ z o. o ≡ of_whole (nat_abs z) };

    #[inline]
    fn from(number: i64) -> PluralOperands {
        PluralOperands::from(number.unsigned_abs())
    }
}

/// The operands of the absolute value: the sign has no effect.
impl From<isize> for PluralOperands {
    ghost from_gives = { λ z o. o ≡ of_whole (nat_abs z) };

    #[inline]
    fn from(number: isize) -> PluralOperands {
        PluralOperands::from(number.unsigned_abs())
    }
}

/// The operands of the absolute value, as of a `u128`.
impl From<i128> for PluralOperands {
    ghost from_gives = { λ z o. o ≡ of_wide (nat_abs z) };

    #[inline]
    fn from(number: i128) -> PluralOperands {
        PluralOperands::from(number.unsigned_abs())
    }
}
