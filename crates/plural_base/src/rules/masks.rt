//! Masks: sets of the numbers below 128, each of which is a bit.

ghost use Rattle.std.specs.Prelude.{◌≡◌, ℕ, ◌<◌, nat_lt};
ghost use Rattle.plural_reference.specs.Truth.{range_holds, remainder};
ghost use Rattle.plural_base.specs.Inner.Masks.{has_bit};

// The numbers below a limit.
pub(crate) fn below(limit: u64) -> u128
    ensures { (k : ℕ) → k < 128 → has_bit result k ≡ nat_lt k limit }
{
    if limit < 128 {
        (1 << limit) - 1
    } else {
        u128::MAX
    }
}

// The numbers from a start to an end, both included.
pub(crate) fn between(start: u32, end: u32) -> u128
    ensures { (k : ℕ) → k < 128 → has_bit result k ≡ range_holds k (start, end) }
{
    below(u64::from(end) + 1) & !below(u64::from(start))
}

// The numbers whose remainder by a modulus is in a mask.
pub(crate) fn repeated(mask: u128, modulus: u32) -> u128
    ensures { (k : ℕ) → k < 128 → has_bit result k ≡ has_bit mask (remainder modulus k) }
{
    if modulus == 0 || modulus >= 128 {
        return mask;
    }
    let mut found = mask & below(u64::from(modulus));
    let mut width = modulus;
    while width < 128 {
        found |= found << width;
        width *= 2;
    }
    found
}
