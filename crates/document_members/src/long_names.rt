//! Names that are long.

ghost use Rattle.std.specs.Prelude.{◌≡◌};
ghost use Rattle.document_members.specs.ChainSteps.{is_long_name};

// The most bytes of a name that isn't long.
pub(crate) const MOST_NAME_BYTES: usize = 255;

/// Returns whether a name is long: it has more than 255 bytes. It allocates nothing.
pub fn is_long_name(name: &str) -> bool
    ensures { result ≡ is_long_name name.now }
{
    name.len() > MOST_NAME_BYTES
}
