//! Why bytes are refused as a pattern, and why a pattern can't be packed.

use packed_list::ListError;
use std::alloc::AllocError;
use std::error::Error;
use std::fmt;

/// Why bytes aren't a packed pattern.
#[derive(Clone, Copy, Debug, PartialEq, Eq)]
pub enum BlockError {
    /// The bytes aren't a packed list, and why.
    List(ListError),
    /// The item at this place isn't a part: its form or its length is none of a part, its depth is
    /// above 32, or its name is longer than the item.
    Part(usize),
    /// The item at this place is a part, and the argument or the branch that it begins doesn't end
    /// where it says, a branch isn't where it says, or bytes of its places are missing.
    Place(usize),
    /// The part at this place may not follow the one before it, or the parts end before it in an
    /// argument.
    Order(usize),
}

impl fmt::Display for BlockError {
    ghost use Rattle.std.specs.Prelude.{Some};
    ghost use Rattle.packed_pattern.specs.PatternBlocks.{block_error_text};

    ghost output = { λ error. Some (block_error_text error) };

    fn fmt<W: fmt::Write>(&self, f: &mut fmt::Formatter<W>) -> fmt::Result {
        match self {
            BlockError::List(fault) => write!(f, "{fault}"),
            BlockError::Part(place) => write!(f, "bad part {place}"),
            BlockError::Place(place) => write!(f, "bad place in part {place}"),
            BlockError::Order(place) => write!(f, "part {place} out of order"),
        }
    }
}

impl Error for BlockError {}

/// Why a pattern can't be packed.
#[derive(Clone, Copy, Debug, PartialEq, Eq)]
pub enum PackPatternError {
    /// The parts are more than 65535.
    CountLimit,
    /// The part at this place is more than 32 branches deep, or begins an argument whose name has
    /// more than 255 bytes, or whose offset has no digits.
    Part(usize),
    /// The part at this place may not follow the one before it, or the parts end before it in an
    /// argument.
    Order(usize),
    /// A part would start after place 65535 of the data.
    StartLimit,
    /// Out of memory.
    Memory,
}

impl fmt::Display for PackPatternError {
    ghost use Rattle.std.specs.Prelude.{Some};
    ghost use Rattle.packed_pattern.specs.PatternBlocks.{pack_pattern_error_text};

    ghost output = { λ error. Some (pack_pattern_error_text error) };

    fn fmt<W: fmt::Write>(&self, f: &mut fmt::Formatter<W>) -> fmt::Result {
        match self {
            PackPatternError::CountLimit => f.write_str("too many parts"),
            PackPatternError::Part(place) => write!(f, "part {place} can't be packed"),
            PackPatternError::Order(place) => write!(f, "part {place} out of order"),
            PackPatternError::StartLimit => f.write_str("pattern too long"),
            PackPatternError::Memory => f.write_str("out of memory"),
        }
    }
}

impl Error for PackPatternError {}

impl From<AllocError> for PackPatternError {
    ghost use Rattle.std.specs.Prelude.{◌≡◌};
    ghost use Rattle.packed_pattern.specs.declared.error.PackPatternError.TheVariants.{Memory};

    ghost from_gives = { λ _ error. error ≡ Memory };

    fn from(_error: AllocError) -> Self {
        PackPatternError::Memory
    }
}
