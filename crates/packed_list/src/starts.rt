//! Reads the numbers of a list's header at proved places.

ghost use Rattle.std.specs.Prelude.{◌≡◌, ◌+◌, ◌*◌, ◌<◌, ◌≤◌, length, slice_range, IsTrue, IsFalse};
ghost use Rattle.packed_list.specs.ListBytes.{HasBadStart, two_byte_number};
ghost use Rattle.packed_list.specs.Inner.ListReading.{HasGoodStarts};

// The number in the two bytes at a place, low byte first.
#[inline]
pub(crate) fn number(bytes: &[u8], place: usize) -> usize
    requires { place + 1 < length bytes.now }
    ensures value { result ≡ two_byte_number bytes.now place }
    ensures bound { result < 65536 }
{
    usize::from(u16::from_le_bytes([bytes[place], bytes[place + 1]]))
}

// The bytes from one place up to another.
#[inline]
pub(crate) fn part(bytes: &[u8], from: usize, to: usize) -> &[u8]
    requires order { from ≤ to }
    requires within { to ≤ length bytes.now }
    ensures { result.now ≡ slice_range bytes.now from to }
{
    &bytes[from..to]
}

// Whether no start is below the previous one or above the length of the data.
pub(crate) fn are_starts(bytes: &[u8], count: usize) -> bool
    requires count { count ≡ two_byte_number bytes.now 0 }
    requires some { 0 < count }
    requires header { 2 * count ≤ length bytes.now }
    ensures good { IsTrue result → HasGoodStarts bytes.now }
    ensures bad { IsFalse result → HasBadStart bytes.now }
{
    let mut before = 0;
    for index in 1..count {
        let start = number(bytes, 2 * index);
        if start < before || bytes.len() - 2 * count < start {
            return false;
        }
        before = start;
    }
    true
}
