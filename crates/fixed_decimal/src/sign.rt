//! The sign of a decimal.

ghost use Rattle.std.specs.Prelude.{◌≡◌, ℕ, List, ◌++◌};
ghost use Rattle.fixed_decimal.specs.Written.{sign_text};
ghost use Rattle.fixed_decimal.specs.Inner.TextParts.{HasNoSign};

/// The sign that a decimal's text begins with.
#[derive(Clone, Copy, Debug, PartialEq, Eq)]
pub enum Sign {
    /// No sign is written.
    None,
    /// `-`, also before a zero.
    Negative,
    /// `+`.
    Positive,
}

// The sign that a text begins with, and what follows it.
pub(crate) fn split_sign(text: &[u8]) -> (Sign, &[u8])
    ensures form { text.now ≡ sign_text result.0 ++ result.1.now }
    ensures only { (s : Sign) (digits : List ℕ)
        → HasNoSign digits → text.now ≡ sign_text s ++ digits
        → (s ≡ result.0) × (digits ≡ result.1.now) }
{
    match text {
        [b'+', digits @ ..] => (Sign::Positive, digits),
        [b'-', digits @ ..] => (Sign::Negative, digits),
        digits => (Sign::None, digits),
    }
}
