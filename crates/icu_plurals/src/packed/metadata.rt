//! Four bits beside a text.

ghost use Rattle.std.specs.Prelude.{◌<◌};

/// Four bits beside a text of packed elements. Their meaning is up to the user.
///
/// <!-- snippet crates/tests_libraries/src/tests/icu_plurals_examples.rt: example body of fn metadata_has_four_bits -->
/// ```
/// assert!(rt; FourBitMetadata::zero().get() == 0);
/// assert!(rt; FourBitMetadata::try_from_byte(0) == Some(FourBitMetadata::zero()));
/// assert!(rt; FourBitMetadata::try_from_byte(15).map(|most| most.get()) == Some(15));
/// assert!(rt; FourBitMetadata::try_from_byte(16).is_none());
/// assert!(rt; FourBitMetadata::try_from_byte(255).is_none());
/// ```
#[derive(Clone, Copy, Debug, PartialEq, Eq)]
pub struct FourBitMetadata {
    value: u8,
    ghost below: { value < 16 },
}

impl FourBitMetadata {
    ghost use Rattle.std.specs.Prelude.{◌≡◌, ◌≤◌, ◌<◌, ◌%◌, ◌↔◌, IfSome, IsSome};
    ghost use Rattle.icu_plurals.specs.Inner.ElementsViews.{metadata_number};

    /// Returns the number as metadata, if it is at most 15.
    pub fn try_from_byte(byte: u8) -> Option<FourBitMetadata>
        ensures same { IfSome result (λ metadata. metadata_number metadata ≡ byte) }
        ensures found { IsSome result ↔ (byte ≤ 15) }
    {
        if byte > 15 {
            return None;
        }
        Some(FourBitMetadata { value: byte })
    }

    /// Returns metadata without a bit set.
    pub fn zero() -> FourBitMetadata
        ensures { metadata_number result ≡ 0 }
    {
        FourBitMetadata { value: 0 }
    }

    // The metadata in bits 0 to 3 of a byte.
    pub(crate) fn of_low_bits(byte: u8) -> FourBitMetadata
        ensures { metadata_number result ≡ byte % 16 }
    {
        FourBitMetadata { value: byte % 16 }
    }

    /// Returns the number, at most 15.
    pub fn get(self) -> u8
        ensures same { result ≡ metadata_number self }
        ensures below { result < 16 }
    {
        self.value
    }
}
