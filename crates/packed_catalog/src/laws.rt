//! What is true of all packed catalogues.

ghost use Rattle.std.specs.Prelude.{◌≡◌, ◌↔◌, ℕ, List};
ghost use Rattle.packed_catalog.specs.CatalogBytes.{CatalogBytes, Entry};

/// Packed catalogues have the same bytes if and only if they have the same entries.
pub fn one_encoding()
    ensures { (entries others : List Entry) (a b : List ℕ) → CatalogBytes entries a → CatalogBytes others b → (a ≡ b) ↔ (entries ≡ others) }
{}
