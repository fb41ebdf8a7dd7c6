//! The bytes of a part's places.

ghost use Rattle.std.specs.Prelude.{◌≡◌, ◌≤◌};
ghost use Rattle.packed_list.specs.ListBytes.{two_bytes};

/// The bytes of a part's places.
#[derive(Clone, Copy)]
pub struct PlaceBytes {
    bytes: [u8; 16],
    count: usize,
    ghost few: { count ≤ 16 },
}

impl PlaceBytes {
    ghost use Rattle.std.specs.Prelude.{◌≡◌, ◌≤◌, ◌++◌, [], length};
    ghost use Rattle.packed_list.specs.ListBytes.{two_bytes};
    ghost use Rattle.packed_part.specs.Inner.PartViews.{places_view};

    /// Returns those of no places.
    pub fn none() -> PlaceBytes
        ensures { places_view result ≡ [] }
    {
        PlaceBytes {
            bytes: [0; 16],
            count: 0,
        }
    }

    /// Returns those of one place.
    pub fn of_one(place: usize) -> PlaceBytes
        requires { place ≤ 65535 }
        ensures { places_view result ≡ two_bytes place }
    {
        let place = two_bytes(place);
        PlaceBytes {
            bytes: [place[0], place[1], 0, 0, 0, 0, 0, 0, 0, 0, 0, 0, 0, 0, 0, 0],
            count: 2,
        }
    }

    /// Returns those of two places.
    pub fn of_two(first: usize, second: usize) -> PlaceBytes
        requires first { first ≤ 65535 }
        requires second { second ≤ 65535 }
        ensures { places_view result ≡ two_bytes first ++ two_bytes second }
    {
        let first = two_bytes(first);
        let second = two_bytes(second);
        PlaceBytes {
            bytes: [
                first[0], first[1], second[0], second[1], 0, 0, 0, 0, 0, 0, 0, 0, 0, 0, 0, 0,
            ],
            count: 4,
        }
    }

    /// Returns those of all places of a plural.
    pub fn of(bytes: [u8; 16]) -> PlaceBytes
        ensures { places_view result ≡ bytes }
    {
        PlaceBytes { bytes, count: 16 }
    }

    /// Returns the bytes.
    pub fn as_slice(&self) -> &[u8]
        ensures bytes { result.now ≡ places_view self.now }
        ensures few { length result.now ≤ 16 }
    {
        &self.bytes[..self.count]
    }
}

// A number as two bytes, the lower one first.
pub(crate) fn two_bytes(number: usize) -> [u8; 2]
    requires { number ≤ 65535 }
    ensures { result ≡ two_bytes number }
{
    [(number % 256) as u8, (number / 256) as u8]
}
