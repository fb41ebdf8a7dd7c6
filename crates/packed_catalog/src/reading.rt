//! The pieces of a block, and the faults among them.

ghost use Rattle.std.specs.Prelude.{◌≡◌, ◌↔◌, ◌+◌, ◌*◌, ◌<◌, ◌≤◌, ℕ, suc, length, IsTrue, IfNone, IfSome};
ghost use Rattle.std.specs.Cmp.Lexicographic.{slice_cmp};
ghost use Rattle.std.specs.declared.cmp.Ordering.TheVariants.{Less};
ghost use Rattle.std.specs.Ordering.{nat_cmp};
ghost use Rattle.packed_catalog.specs.CatalogFaults.{HasBadEnd, HasGoodEnds, HasWholeData, IsFirst, IsLowKey, count_in, data_in, key_in, piece_in, start_of};
ghost use Rattle.packed_catalog.specs.Inner.CatalogReading.{SharesFront};

use crate::numbers::{number, start_of};

// A piece of the data.
#[inline]
pub(crate) fn piece<'a>(bytes: &[u8], content: &'a [u8], k: usize) -> &'a [u8]
    requires ends { HasGoodEnds bytes.now }
    requires content { content.now ≡ data_in bytes.now }
    requires within { k < 2 * count_in bytes.now }
    ensures { result.now ≡ piece_in bytes.now k }
{
    &content[start_of(bytes, k)..start_of(bytes, k + 1)]
}

// Whether a key is below another.
#[inline]
pub(crate) fn is_below(key: &[u8], other: &[u8]) -> bool
    ensures { IsTrue result ↔ (slice_cmp nat_cmp key.now other.now ≡ Less) }
{
    key.cmp(&other).is_lt()
}

// How many bytes at the front a key has in common with another, if so many are known to be, and
// whether it is below the other.
pub(crate) fn compared(key: &[u8], other: &[u8], known: usize) -> (usize, bool)
    ensures shares { SharesFront known key.now other.now → SharesFront result.0 key.now other.now }
    ensures below { SharesFront known key.now other.now → IsTrue result.1 ↔ (slice_cmp nat_cmp key.now other.now ≡ Less) }
{
    let both = key.len().min(other.len());
    for i in known..both {
        if key[i] != other[i] {
            return (i, key[i] < other[i]);
        }
    }
    (both, key.len() < other.len())
}

// The first entry with a piece that ends before it begins.
pub(crate) fn first_bad_end(bytes: &[u8], count: usize) -> Option<usize>
    requires count { count ≡ count_in bytes.now }
    requires header { 4 + 8 * count ≤ length bytes.now }
    ensures none { IfNone result ((k : ℕ) → k < 2 * count → start_of bytes.now k ≤ start_of bytes.now (suc k)) }
    ensures within { IfSome result (λ index. index < count) }
    ensures some { IfSome result (λ index. IsFirst (HasBadEnd bytes.now) index) }
{
    let mut before = 0;
    for k in 0..2 * count {
        let end = number(bytes, 4 + 4 * k);
        if end < before {
            return Some(k / 2);
        }
        before = end;
    }
    None
}

// The first entry whose key isn't above the one before it.
pub(crate) fn first_low_key(bytes: &[u8], content: &[u8], count: usize) -> Option<usize>
    requires ends { HasGoodEnds bytes.now }
    requires content { content.now ≡ data_in bytes.now }
    requires count { count ≡ count_in bytes.now }
    ensures none { IfNone result ((k : ℕ) → suc k < count → slice_cmp nat_cmp (key_in bytes.now k) (key_in bytes.now (suc k)) ≡ Less) }
    ensures within { IfSome result (λ index. index < count) }
    ensures some { IfSome result (λ index. IsFirst (IsLowKey (key_in bytes.now)) index) }
{
    for index in 1..count {
        let before = piece(bytes, content, 2 * (index - 1));
        if !is_below(before, piece(bytes, content, 2 * index)) {
            return Some(index);
        }
    }
    None
}
