//! Laws of the definitions that the contracts name.

ghost use Rattle.std.specs.Prelude.{◌≡◌, ◌↔◌, ℕ, List};
ghost use Rattle.message_pattern.specs.PatternParts.{Part};
ghost use Rattle.packed_pattern.specs.PatternBlocks.{PatternBlock, TextsAreInOrder};
ghost use Rattle.packed_part.specs.Inner.PartReading.{parts_in};

use message_pattern::laws::patterns_print_back;
use packed_list::laws::read_again as items_again;

/// Packed patterns have the same bytes if and only if they have the same parts.
pub fn one_encoding()
    ensures { (parts others : List Part) (a b : List ℕ) → PatternBlock parts a → PatternBlock others b → (a ≡ b) ↔ (parts ≡ others) }
{
    items_again();
}

/// The reader of bytes gives the parts that they are packed from.
pub fn read_again()
    ensures { (parts : List Part) (bytes : List ℕ) → PatternBlock parts bytes → parts_in bytes ≡ parts }
{
    items_again();
}

/// The parts of a text stand in order, so [`pack`](crate::pack) refuses none of them for their order.
pub fn texts_are_in_order()
    ensures { TextsAreInOrder }
{
    patterns_print_back();
}
