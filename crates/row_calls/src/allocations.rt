//! The kind `allocations`, by which `tools/refuse-growth` moves the allocation that is refused.

use crate::call::Call;

/// Makes the call of the kind `allocations`. Returns whether it is this kind.
pub fn make(kind: &str, call: &mut Call) -> bool {
    if kind != "allocations" {
        return false;
    }
    allocations(call);
    true
}

// Takes memory as often as a number says, and gives it back.
fn allocations(call: &mut Call) {
    for _ in 0..call.number() {
        let mut list = Vec::new(call.alloc);
        call.add_item(&mut list, 0u8);
    }
    call.print("done");
}
