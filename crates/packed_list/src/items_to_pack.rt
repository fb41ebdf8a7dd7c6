//! What a packed list is made from: items that know their length in bytes and write themselves.

ghost use Rattle.std.specs.Prelude.{◌≡◌, ◌+◌, ◌++◌, ◌^◌, ◌<◌, MatchOption, OnOk, [], ◌∷◌, length};
ghost use Rattle.std.specs.Result.{OnErr};
ghost use Rattle.packed_list.specs.ListBytes.{StaysInFront};

use std::alloc::AllocError;

/// An item of a list that is to be packed. It knows its length in bytes, and writes them.
pub trait ByteItem: Copy {
    ghost use Rattle.std.specs.Prelude.{ℕ, List};

    /// The bytes of the item.
    ghost item_bytes: { Self → List ℕ };

    /// Returns how many bytes it takes.
    fn byte_count(&self) -> usize
        ensures count { result ≡ length (item_bytes self.now) }
        ensures room { result < 2 ^ 63 + 65536 };

    /// Appends its bytes. If memory runs out, what stood there stays, and some of them may follow.
    fn write_to(&self, bytes: &mut Vec<u8>) -> Result<(), AllocError>
        ensures written { OnOk result (bytes.new.items ≡ bytes.old.items ++ item_bytes self.now) }
        ensures kept { OnErr result (StaysInFront bytes.old.items bytes.new.items) };
}

/// Items that are taken from the front, one after another. A copy gives the same items again, since
/// a list is written by more than one walk over its items.
pub trait ByteItems: Copy {
    ghost use Rattle.std.specs.Prelude.{ℕ, List};

    type Item: ByteItem;

    /// The remaining items.
    ghost items: { Self → List (List ℕ) };

    /// Takes the first remaining item.
    fn next_item(&mut self) -> Option<Self::Item>
        ensures { MatchOption result (items self.old ≡ []) (λ item. items self.old ≡ Self.Item.item_bytes item ∷ items self.new) };
}

impl<'a> ByteItem for &'a [u8] {
    ghost item_bytes = { λ item. item.now };

    #[inline]
    fn byte_count(&self) -> usize {
        self.len()
    }

    #[inline]
    fn write_to(&self, bytes: &mut Vec<u8>) -> Result<(), AllocError> {
        bytes.extend_from_slice(self)
    }
}

impl<'a, T: ByteItem> ByteItems for &'a [T] {
    ghost use Rattle.std.specs.Prelude.{map};

    type Item = T;

    ghost items = { λ items. map T.item_bytes items.now };

    #[inline]
    fn next_item(&mut self) -> Option<T> {
        let (first, others) = self.split_first()?;
        *self = others;
        Some(*first)
    }
}
