//! The text of `#`.

ghost use Rattle.std.specs.Prelude.{◌≡◌};

/// The text of `#` in a branch.
#[derive(Drop)]
pub enum Shown<'s> {
    /// As it is given.
    Given(&'s [u8]),
    /// Of a number less an offset.
    Less(Vec<u8>),
}

impl<'s> Shown<'s> {
    ghost use Rattle.message_format.specs.Inner.FormatViews.{shown_view};

    // The text.
    pub(crate) fn as_bytes(&self) -> &[u8]
        ensures { result.now ≡ shown_view self.now }
    {
        match self {
            Shown::Given(text) => *text,
            Shown::Less(text) => text.as_slice(),
        }
    }
}
