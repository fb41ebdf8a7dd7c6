//! What is true of all texts, rules and packed elements.

ghost use Rattle.std.specs.Prelude.{◌≡◌, ◌↔◌, ℕ, List};
ghost use Rattle.plural_operands.specs.Operands.{Operands};
ghost use Rattle.plural_base.specs.FiveRules.{FiveRules};
ghost use Rattle.icu_plurals.specs.Elements.{KeptElementIsExact, Elements, element_at};
ghost use Rattle.icu_plurals.specs.PackedElements.{without_repeats, ElementsBytes, PackedElements, PackedValue, elements_of, packed_of};
ghost use Rattle.icu_plurals.specs.Inner.ElementsReading.{read_elements};

use packed_list::laws::read_again;
use plural_base::laws::kept_choice_is_exact;
pub use plural_base::laws::{rules_have_every_reading, texts_give_one_answer};
use plural_reference::laws::exactness::kept_operands_agree;
pub use plural_reference::laws::reading::one_list_of_tokens;

/// Packed elements have the same bytes if and only if they have the same default and items.
pub fn one_encoding_of_elements()
    ensures { (elements others : PackedElements) (a b : List ℕ) → ElementsBytes elements a → ElementsBytes others b
        → (a ≡ b) ↔ (elements ≡ others) }
{
    read_again();
}

/// The reader of bytes returns the elements that they are packed from.
pub fn elements_read_again()
    ensures { (elements : PackedElements) (bytes : List ℕ) → ElementsBytes elements bytes → read_elements bytes ≡ elements }
{
    read_again();
}

/// Packed elements have the values that were packed, without the category values that equal the
/// value of other in metadata and text.
pub fn packed_values_again()
    ensures { (e : Elements PackedValue) → elements_of (packed_of e) ≡ without_repeats e }
{}

/// Packed elements give every number the same value as the elements that were packed, under all
/// rules.
pub fn packed_elements_answer()
    ensures { (e : Elements PackedValue) (op : Operands) (rules : FiveRules) → element_at (elements_of (packed_of e)) op rules ≡ element_at e op rules }
{}

/// Within the bound, under rules that are read from texts, the value that the kept operands of a
/// number choose among packed elements is the one that the exact number has.
pub fn kept_element_is_exact()
    ensures { KeptElementIsExact PackedValue }
{
    kept_operands_agree();
    kept_choice_is_exact();
}
