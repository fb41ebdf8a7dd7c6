//! What is true of all packed lists.

ghost use Rattle.std.specs.Prelude.{◌≡◌, ◌↔◌, ℕ, List};
ghost use Rattle.std.specs.List.{AllByRecursion};
ghost use Rattle.packed_list.specs.ListBytes.{HasFault, ListBytes};
ghost use Rattle.packed_list.specs.declared.error.ListError.{ListError};
ghost use Rattle.packed_list.specs.Inner.ListReading.{AreBytes, items_in};

/// Packed lists have the same bytes if and only if they have the same items.
pub fn one_encoding()
    ensures { (items others : List (List ℕ)) (a b : List ℕ) → ListBytes items a → ListBytes others b → (a ≡ b) ↔ (items ≡ others) }
{}

/// The reader of bytes gives the list that they are packed from.
pub fn read_again()
    ensures { (items : List (List ℕ)) (bytes : List ℕ) → ListBytes items bytes → items_in bytes ≡ items }
{}

/// The items of a list of bytes are bytes.
pub fn item_bytes()
    ensures { (items : List (List ℕ)) (bytes : List ℕ) → ListBytes items bytes → AreBytes bytes → AllByRecursion AreBytes items }
{}

/// The bytes of a list have no fault.
pub fn no_fault()
    ensures { (items : List (List ℕ)) (bytes : List ℕ) (fault : ListError) → ListBytes items bytes → HasFault bytes fault → ⊥ }
{}
