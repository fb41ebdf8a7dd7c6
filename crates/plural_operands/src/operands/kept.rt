//! How much of a long number is kept, and the powers of ten up to there.

ghost use Rattle.std.specs.Prelude.{◌≡◌, ◌^◌, ◌≤◌};

/// The most places of a decimal that are kept on each side of the point.
pub const KEPT_PLACES: usize = 18;

/// 10 to the power 18: a longer integer part is kept by its last 18 digits, with this added.
pub const KEPT_LIMIT: u64 = 1_000_000_000_000_000_000;

// The powers of ten up to that.
const POWERS_OF_TEN: [u64; 19] = [
    1,
    10,
    100,
    1_000,
    10_000,
    100_000,
    1_000_000,
    10_000_000,
    100_000_000,
    1_000_000_000,
    10_000_000_000,
    100_000_000_000,
    1_000_000_000_000,
    10_000_000_000_000,
    100_000_000_000_000,
    1_000_000_000_000_000,
    10_000_000_000_000_000,
    100_000_000_000_000_000,
    KEPT_LIMIT,
];

// 10 to a power.
#[inline]
pub(crate) fn power_of_ten(power: usize) -> u64
    requires { power ≤ 18 }
    ensures { result ≡ 10 ^ power }
{
    POWERS_OF_TEN[power]
}
