//! Why bytes are refused as a list, and items as too many or too long.

use std::alloc::AllocError;
use std::error::Error;
use std::fmt;

/// Why bytes aren't a packed list.
#[derive(Clone, Copy, Debug, PartialEq, Eq)]
pub enum ListError {
    /// There is one byte, or fewer bytes than the count of items needs.
    Header,
    /// The count of items is present and is 0: the empty list is no byte.
    ZeroCount,
    /// An item starts before the previous one, or after the end of the data.
    Start,
}

impl fmt::Display for ListError {
    ghost use Rattle.std.specs.Prelude.{Some};
    ghost use Rattle.packed_list.specs.ListBytes.{list_error_text};

    ghost output = { λ error. Some (list_error_text error) };

    fn fmt<W: fmt::Write>(&self, f: &mut fmt::Formatter<W>) -> fmt::Result {
        f.write_str(match self {
            ListError::Header => "list header too short",
            ListError::ZeroCount => "list without items",
            ListError::Start => "bad start of a list item",
        })
    }
}

impl Error for ListError {}

/// Why items can't be packed.
#[derive(Clone, Copy, Debug, PartialEq, Eq)]
pub enum PackError {
    /// The items are more than 65535.
    CountLimit,
    /// An item would start after place 65535 of the data.
    StartLimit,
    /// The bytes can't be allocated.
    Memory,
}

impl fmt::Display for PackError {
    ghost use Rattle.std.specs.Prelude.{Some};
    ghost use Rattle.packed_list.specs.ListBytes.{pack_error_text};

    ghost output = { λ error. Some (pack_error_text error) };

    fn fmt<W: fmt::Write>(&self, f: &mut fmt::Formatter<W>) -> fmt::Result {
        f.write_str(match self {
            PackError::CountLimit => "too many list items",
            PackError::StartLimit => "list too long",
            PackError::Memory => "out of memory",
        })
    }
}

impl Error for PackError {}

impl From<AllocError> for PackError {
    ghost use Rattle.std.specs.Prelude.{◌≡◌};
    ghost use Rattle.packed_list.specs.declared.error.PackError.TheVariants.{Memory};

    ghost from_gives = { λ _ error. error ≡ Memory };

    fn from(_error: AllocError) -> PackError {
        PackError::Memory
    }
}
