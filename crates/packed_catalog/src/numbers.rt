//! The numbers of a block, at proved places.

ghost use Rattle.std.specs.Prelude.{◌≡◌, ◌+◌, ◌*◌, ◌<◌, ◌≤◌, length, MatchOption};
ghost use Rattle.packed_catalog.specs.CatalogFaults.{count_in, data_in, four_byte_number_at, start_of};

// The number in the four bytes at a place, low byte first.
#[inline]
pub(crate) fn number(bytes: &[u8], place: usize) -> usize
    requires { place + 4 ≤ length bytes.now }
    ensures value { result ≡ four_byte_number_at bytes.now place }
    ensures bound { result < 4294967296 }
{
    u32::from_le_bytes([
        bytes[place],
        bytes[place + 1],
        bytes[place + 2],
        bytes[place + 3],
    ]) as usize
}

// The count of entries, if the count and the ends are there.
pub(crate) fn count_of(bytes: &[u8]) -> Option<usize>
    ensures value { MatchOption result (length bytes.now < 4 + 8 * count_in bytes.now) (λ count. count ≡ count_in bytes.now) }
    ensures bound { MatchOption result (length bytes.now < 4 + 8 * count_in bytes.now) (λ count. 4 + 8 * count ≤ length bytes.now) }
{
    if bytes.len() < 4 {
        return None;
    }
    let count = number(bytes, 0);
    if bytes.len() < 4 + 8 * count {
        return None;
    }
    Some(count)
}

// Where a piece starts in the data.
#[inline]
pub(crate) fn start_of(bytes: &[u8], k: usize) -> usize
    requires { 4 * k + 4 ≤ length bytes.now }
    ensures { result ≡ start_of bytes.now k }
{
    if k == 0 { 0 } else { number(bytes, 4 * k) }
}

// The bytes after the count and the ends.
#[inline]
pub(crate) fn data(bytes: &[u8]) -> &[u8]
    requires { 4 + 8 * count_in bytes.now ≤ length bytes.now }
    ensures { result.now ≡ data_in bytes.now }
{
    &bytes[4 + 8 * number(bytes, 0)..]
}
