//! Packs byte items as the bytes of a list.

ghost use Rattle.std.specs.Prelude.{◌≡◌, ◌↔◌, ◌<◌, ◌≤◌, Err, IfOk, IsTrue, length};
ghost use Rattle.packed_list.specs.ListBytes.{ListBytes, has_high_start, lent};

use crate::error::PackError;
use crate::list::PackedList;
use crate::writer::ListWriter;
use std::alloc::Global;

impl<'a> PackedList<'a> {
    /// Returns the bytes of the items, made by one allocation.
    ///
    /// The errors, in the order in which they are looked for: more than 65535 items
    /// ([`PackError::CountLimit`]); an item that would start after place 65535
    /// ([`PackError::StartLimit`]); out of memory ([`PackError::Memory`]).
    ///
    /// <!-- snippet crates/example_calls/src/calls/lists.rt:
    ///      "let items" to "let bytes" of fn show_list -->
    /// ```
    /// let items: [&[u8]; 3] = [b"ab", b"", b"cd"];
    /// let bytes = PackedList::encode(alloc, &items)?;
    /// ```
    pub fn encode(alloc: Global, items: &[&[u8]]) -> Result<Vec<u8>, PackError>
        ensures ok { IfOk result (λ bytes. ListBytes (lent items.now) bytes.items) }
        ensures count_limit { (result ≡ Err PackError.CountLimit) ↔ (65535 < length items.now) }
        ensures start_limit { (result ≡ Err PackError.StartLimit) ↔ ((length items.now ≤ 65535) × IsTrue (has_high_start (lent items.now))) }
    {
        let list = ListWriter::new(items)?;
        match list.to_bytes(alloc) {
            Ok(bytes) => Ok(bytes),
            Err(_) => Err(PackError::Memory),
        }
    }
}
