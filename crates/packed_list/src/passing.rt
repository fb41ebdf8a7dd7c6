//! Lists each item of which passes a test, read in one pass.

ghost use Rattle.std.specs.Prelude.{◌≡◌, ◌*◌, ◌<◌, ◌≤◌, ℕ, List, length, IfSome, IfNone, IsTrue, IsFalse};
ghost use Rattle.std.specs.List.{list_all};
ghost use Rattle.packed_list.specs.ListBytes.{ListBytes, two_byte_number};
ghost use Rattle.packed_list.specs.Inner.ListReading.{IsList, items_in};

use crate::list::PackedList;
use crate::starts::{number, part};

/// A test of the items of a list.
pub trait ItemTest {
    ghost use Rattle.std.specs.Prelude.{◌≡◌, ℕ, Bool, List};

    /// Whether an item passes.
    ghost passing: { List ℕ → Bool };

    /// Returns whether an item passes.
    fn passes(item: &[u8]) -> bool
        ensures { result ≡ passing item.now };
}

impl<'a> PackedList<'a> {
    /// Reads bytes as a packed list each item of which passes a test, or returns `None` if they are
    /// none. It allocates nothing, and reads each start once: where most bytes are good, it is called
    /// first, and [`parse_bytes`](PackedList::parse_bytes) only for what is wrong with the others.
    #[inline(always)]
    pub fn parse_passing<T: ItemTest>(bytes: &'a [u8]) -> Option<PackedList<'a>>
        ensures list { IfSome result (λ list. ListBytes list bytes.now) }
        ensures pass { IfSome result (λ list. IsTrue (list_all T.passing list)) }
        ensures none { IfNone result ((items : List (List ℕ)) → ListBytes items bytes.now → IsFalse (list_all T.passing items)) }
    {
        if bytes.len() < 2 {
            return if bytes.is_empty() {
                Some(PackedList::from_checked(bytes))
            } else {
                None
            };
        }
        let count = number(bytes, 0);
        if count == 0 || bytes.len() < 2 * count || !are_passing::<T>(bytes, count) {
            return None;
        }
        Some(PackedList::from_checked(bytes))
    }
}

// Whether no start is bad and each item passes a test, from the last item to the first.
#[inline(always)]
fn are_passing<T: ItemTest>(bytes: &[u8], count: usize) -> bool
    requires count { count ≡ two_byte_number bytes.now 0 }
    requires some { 0 < count }
    requires header { 2 * count ≤ length bytes.now }
    ensures list { IsTrue result → IsList bytes.now }
    ensures pass { IsTrue result → IsTrue (list_all T.passing (items_in bytes.now)) }
    ensures fail { IsFalse result → (items : List (List ℕ)) → ListBytes items bytes.now → IsFalse (list_all T.passing items) }
{
    let content = part(bytes, 2 * count, bytes.len());
    let mut end = content.len();
    let mut place = count - 1;
    while place > 0 {
        let start = number(bytes, 2 * place);
        if start > end || !T::passes(part(content, start, end)) {
            return false;
        }
        end = start;
        place -= 1;
    }
    T::passes(part(content, 0, end))
}
