//! Packed lists: examples of the pages, and what takes no memory.

use crate::tests::assertion::holds;
use packed_list::{ItemTest, PackError, PackedList};
use std::alloc::Global;

// The list of `ab`, the empty item and `cd`.
const THREE_ITEMS: &[u8] = b"\x03\x00\x02\x00\x02\x00abcd";

#[test]
fn gives_the_items_and_their_starts(rt: HostRuntime) {
    let expected: [(&[u8], usize); 3] = [(b"ab", 0), (b"", 2), (b"cd", 2)];
    let list = PackedList::parse_bytes(THREE_ITEMS).expect(&rt, "a list");
    holds!(rt; list.len() == 3);
    holds!(rt; list.as_bytes() == THREE_ITEMS);
    let mut items = list.iter();
    for (place, (item, start)) in expected.iter().enumerate() {
        holds!(rt; list.get(place) == Some(*item), at place);
        holds!(rt; list.start(place) == Some(*start), at place);
        holds!(rt; items.next() == Some(*item), at place);
    }
    holds!(rt; list.get(3) == None);
    holds!(rt; list.start(3) == None);
    holds!(rt; items.next() == None);
}

// Whether packing gives the three items, or `None` if memory ran out.
fn packs_three(alloc: Global) -> Option<bool> {
    match PackedList::encode(alloc, &[b"ab", b"", b"cd"]) {
        Ok(bytes) => Some(bytes.as_slice() == THREE_ITEMS),
        Err(PackError::Memory) => None,
        Err(_) => Some(false),
    }
}

#[test]
fn no_item_takes_no_memory(rt: HostRuntime) {
    holds!(rt; PackedList::encode(rt.alloc(), &[]).is_ok());
    holds!(rt; packs_three(rt.alloc()) != Some(false));
}

// The test of items of at most two bytes.
struct TwoAtMost;

impl ItemTest for TwoAtMost {
    ghost use Rattle.std.specs.Prelude.{length, nat_le};

    ghost passing = { λ item. nat_le (length item) 2 };

    fn passes(item: &[u8]) -> bool {
        item.len() <= 2
    }
}

#[test]
fn reads_lists_whose_items_pass(rt: HostRuntime) {
    let rows: [(&[u8], bool); 10] = [
        (b"", true),
        (b"\x01\x00", true),
        (b"\x01\x00ab", true),
        (THREE_ITEMS, true),
        (b"\x01\x00abc", false),
        (b"\x02\x00\x03\x00abcd", false),
        (b"\x02\x00\x01\x00abcd", false),
        (b"\x03\x00\x02\x00\x01\x00abc", false),
        (b"\x02\x00\x03\x00ab", false),
        (b"\x00\x00", false),
    ];
    for (place, (bytes, passes)) in rows.iter().enumerate() {
        match PackedList::parse_passing::<TwoAtMost>(bytes) {
            Some(list) => holds!(rt; *passes && list.as_bytes() == *bytes, at place),
            None => holds!(rt; !*passes, at place),
        }
    }
}
