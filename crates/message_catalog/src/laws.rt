//! What is true of all catalogues of messages.

ghost use Rattle.std.specs.Prelude.{◌≡◌, ◌↔◌, ℕ, List};
ghost use Rattle.message_catalog.specs.CatalogMessages.{Message, MessageBlock};

use packed_pattern::laws::read_again;

/// Catalogues of messages have the same bytes if and only if they have the same messages.
pub fn one_encoding()
    ensures { (messages others : List Message) (a b : List ℕ) → MessageBlock messages a → MessageBlock others b → (a ≡ b) ↔ (messages ≡ others) }
{
    packed_catalog::laws::one_encoding();
    packed_pattern::laws::one_encoding();
    read_again();
}
