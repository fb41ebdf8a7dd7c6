//! The first entry of a catalogue that isn't a message.

ghost use Rattle.std.specs.Prelude.{◌≡◌, ◌↔◌, ℕ, IfNone, IfSome};
ghost use Rattle.packed_pattern.specs.declared.error.BlockError.{BlockError as Fault};
ghost use Rattle.message_catalog.specs.MessageFaults.{IsFirstBad};
ghost use Rattle.message_catalog.specs.Inner.MessageReading.{ArePatterns};

use packed_catalog::PackedCatalog;
use packed_pattern::laws::read_again;
use packed_pattern::{BlockError, PackedPattern};

// The place of the first entry whose value isn't a packed pattern, and why.
pub(crate) fn first_bad(catalog: &PackedCatalog<'_>) -> Option<(usize, BlockError)>
    ensures none { IfNone result (ArePatterns catalog.now) }
    ensures good { IfNone result ((index : ℕ) (fault : Fault) → IsFirstBad catalog.now index fault → ⊥) }
    ensures bad { IfSome result (λ bad. ArePatterns catalog.now → ⊥) }
    ensures some { IfSome result (λ bad. (index : ℕ) (fault : Fault) → (bad ≡ (index, fault)) ↔ IsFirstBad catalog.now index fault) }
{
    read_again();
    for index in 0..catalog.len() {
        let Some(value) = catalog.value(index) else {
            return None;
        };
        if let Err(fault) = PackedPattern::parse_bytes(value) {
            return Some((index, fault));
        }
    }
    None
}
