//! Looks keys up.

ghost use Rattle.std.specs.Prelude.{◌≡◌, ◌≢◌, ◌+◌, ◌*◌, ◌<◌, ◌≤◌, ℕ, List, IfSome, length, option_map};
ghost use Rattle.std.specs.Cmp.Lexicographic.{slice_cmp};
ghost use Rattle.std.specs.declared.cmp.Ordering.TheVariants.{Less};
ghost use Rattle.std.specs.Ordering.{nat_cmp};
ghost use Rattle.std.specs.Str.Iter.{HasSubslice};
ghost use Rattle.packed_catalog.specs.CatalogBytes.{CatalogBytes, Entry, value_under};
ghost use Rattle.packed_catalog.specs.CatalogFaults.{HasGoodEnds, count_in, data_in, key_in, piece_in};
ghost use Rattle.packed_catalog.specs.Inner.CatalogReading.{IsBlock};

use crate::numbers::{count_of, data, start_of};
use crate::reading::compared;

/// Returns the value under a key in the bytes of a packed catalogue, which
/// [`PackedCatalog::parse_bytes`](crate::PackedCatalog::parse_bytes) accepted before: they aren't
/// checked again. Of any other bytes it returns none or some of them.
///
/// It compares the key with about as many others as the count of entries has binary digits, and
/// reads where these begin and end.
pub fn find_value<'a>(bytes: &'a [u8], key: &[u8]) -> Option<&'a [u8]>
    ensures found { (entries : List Entry) → CatalogBytes entries bytes.now → option_map (λ value. value.now) result ≡ value_under key.now entries }
    ensures stands { IfSome result (λ value. HasSubslice bytes.now value.now) }
{
    let Some(count) = count_of(bytes) else {
        return None;
    };
    let content = data(bytes);
    let index = first_from(bytes, content, count, key);
    if index >= count || any_piece(bytes, content, 2 * index) != key {
        return None;
    }
    Some(any_piece(bytes, content, 2 * index + 1))
}

// The place of the first entry of a block whose key isn't below another, or the count of entries.
fn first_from(bytes: &[u8], content: &[u8], count: usize, key: &[u8]) -> usize
    requires header { 4 + 8 * count_in bytes.now ≤ length bytes.now }
    requires content { content.now ≡ data_in bytes.now }
    requires count { count ≡ count_in bytes.now }
    ensures within { result ≤ count }
    ensures below { IsBlock bytes.now → (k : ℕ) → k < result → slice_cmp nat_cmp (key_in bytes.now k) key.now ≡ Less }
    ensures above { IsBlock bytes.now → (k : ℕ) → result ≤ k → k < count → slice_cmp nat_cmp (key_in bytes.now k) key.now ≢ Less }
{
    let (mut low, mut high) = (0, count);
    // How many bytes the keys before and from there on have in common with the key.
    let (mut low_shared, mut high_shared) = (0, 0);
    while low < high {
        let middle = low + (high - low) / 2;
        let other = any_piece(bytes, content, 2 * middle);
        let (shared, is_below) = compared(other, key, low_shared.min(high_shared));
        if is_below {
            low = middle + 1;
            low_shared = shared;
        } else {
            high = middle;
            high_shared = shared;
        }
    }
    low
}

// A piece of the data. It is empty where bytes that aren't a block have none.
#[inline]
fn any_piece<'a>(bytes: &[u8], content: &'a [u8], k: usize) -> &'a [u8]
    requires header { 4 + 8 * count_in bytes.now ≤ length bytes.now }
    requires content { content.now ≡ data_in bytes.now }
    requires within { k < 2 * count_in bytes.now }
    ensures piece { HasGoodEnds bytes.now → result.now ≡ piece_in bytes.now k }
    ensures stands { HasSubslice bytes.now result.now }
{
    let (start, end) = (start_of(bytes, k), start_of(bytes, k + 1));
    if start > end || end > content.len() {
        return &content[..0];
    }
    &content[start..end]
}
