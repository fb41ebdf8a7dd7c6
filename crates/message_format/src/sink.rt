//! What a text is said into.

ghost use Rattle.std.specs.Prelude.{◌≡◌, ◌++◌, ℕ, List, length, OnOk};

use arrayvec::ArrayVec;
use std::alloc::AllocError;

/// What a text is said into, piece by piece.
pub trait Sink {
    ghost use Rattle.std.specs.Prelude.{ℕ, List};

    ghost IsSaid: { Self → List ℕ → Type 0 };

    /// Adds a piece behind what was said before. The error is out of memory, or out of room.
    fn add(&mut self, piece: &[u8]) -> Result<(), AllocError>
        ensures { OnOk result ((said : List ℕ) → IsSaid self.old said → IsSaid self.new (said ++ piece.now)) };
}

impl Sink for Vec<u8> {
    ghost use Rattle.std.specs.Prelude.{◌≡◌};

    ghost IsSaid = { λ text said. text.items ≡ said };

    #[inline(always)]
    fn add(&mut self, piece: &[u8]) -> Result<(), AllocError> {
        self.extend_from_slice(piece)
    }
}

/// How many bytes a text has.
#[derive(Clone, Copy)]
pub struct TextLength {
    /// How many were counted.
    pub count: usize,
}

impl Sink for TextLength {
    ghost use Rattle.std.specs.Prelude.{◌≡◌, length};

    ghost IsSaid = { λ counted said. counted.count ≡ length said };

    #[inline(always)]
    fn add(&mut self, piece: &[u8]) -> Result<(), AllocError> {
        match self.count.checked_add(piece.len()) {
            Some(count) => {
                self.count = count;
                Ok(())
            }
            None => Err(AllocError),
        }
    }
}

impl<const CAP: usize> Sink for ArrayVec<u8, CAP> {
    ghost use Rattle.std.specs.Prelude.{◌≡◌};

    ghost IsSaid = { λ text said. text.items ≡ said };

    #[inline(always)]
    fn add(&mut self, piece: &[u8]) -> Result<(), AllocError> {
        match self.try_extend_from_slice(piece) {
            Ok(()) => Ok(()),
            Err(_) => Err(AllocError),
        }
    }
}
