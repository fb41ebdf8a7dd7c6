//! Packed elements that own or borrow their bytes.

ghost use Rattle.std.specs.Prelude.{◌≡◌, ◌↔◌, Err, Ok, Some, IfOk, option_map};
ghost use Rattle.icu_plurals.specs.Elements.{each_by, element_at};
ghost use Rattle.icu_plurals.specs.ElementsFaults.{HasElementsFault};
ghost use Rattle.icu_plurals.specs.PackedElements.{pack_fault, PackedElements, ElementsBytes, elements_of, packed_of, plain_value};
ghost use Rattle.icu_plurals.specs.Inner.ElementsReading.{AreElements};
ghost use Rattle.icu_plurals.specs.Inner.ElementsViews.{lent_elements, lent_value};

use crate::elements::PluralElements;
use crate::packed::PluralElementsPackedULE;
use crate::packed::error::ElementsBytesError;
use crate::packed::metadata::FourBitMetadata;
use packed_list::laws::read_again;
use plural_base::{ElementsPackError, PluralRules};
use plural_reference::PluralOperands;
use std::alloc::{AllocError, Global};
use std::borrow::CowSlice;
use std::marker::Model;

/// Packed elements, as checked bytes that are borrowed or owned.
#[derive(Debug, Drop)]
pub struct PluralElementsPackedCow<'data> {
    bytes: CowSlice<'data, u8>,
}

impl<'data> Model for PluralElementsPackedCow<'data> {
    ghost use Rattle.std.specs.Cow.{cow_slice_items};
    ghost use Rattle.icu_plurals.specs.PackedElements.{PackedElements};

    ghost Value = { PackedElements };

    ghost use Rattle.icu_plurals.specs.Inner.ElementsReading.{AreElements, read_elements};

    ghost view = { λ packed. read_elements (cow_slice_items packed.bytes) };

    ghost invariant = { λ packed. AreElements (cow_slice_items packed.bytes) };
}

impl PluralElementsPackedCow<'static> {
    /// Packs texts with metadata 0, by one allocation.
    ///
    /// <!-- snippet crates/tests_libraries/src/tests/icu_plurals_packing.rt:
    ///      example "let one = PluralElements::new" to "holds!(rt; one.get(PluralOperands::from(2u8)" -->
    /// ```
    /// let one = PluralElements::new("abc").with_one_value(Some("defg"));
    /// let one = PluralElementsPackedCow::from_elements(alloc, &one)?;
    /// assert!(rt; one.as_packed().as_bytes() == b"\x80\x03abc\x01\0\x10defg".as_slice());
    /// assert!(rt; one.get(PluralOperands::from(1u8), &rules) == "defg");
    /// assert!(rt; one.get(PluralOperands::from(2u8), &rules) == "abc");
    /// ```
    ///
    /// [`ElementsPackError::DefaultLimit`] if the text of other has more than 255 bytes and isn't
    /// the only one that is packed, else [`ElementsPackError::StartLimit`] if another one would
    /// start after place 65535 of the data; out of memory is [`ElementsPackError::Memory`].
    pub fn from_elements(
        alloc: Global,
        elements: &PluralElements<&str>,
    ) -> Result<PluralElementsPackedCow<'static>, ElementsPackError>
        ensures ok { IfOk result (λ packed. packed ≡ packed_of (each_by plain_value elements.now)) }
        ensures default_limit { (result ≡ Err ElementsPackError.DefaultLimit)
            ↔ (pack_fault (packed_of (each_by plain_value elements.now)) ≡ Some ElementsPackError.DefaultLimit) }
        ensures start_limit { (result ≡ Err ElementsPackError.StartLimit)
            ↔ (pack_fault (packed_of (each_by plain_value elements.now)) ≡ Some ElementsPackError.StartLimit) }
    {
        read_again();
        match PluralElementsPackedULE::encode(alloc, &plain(elements)) {
            Ok(bytes) => Ok(PluralElementsPackedCow::owned(bytes)),
            Err(fault) => Err(fault),
        }
    }

    // The elements in owned bytes that are known to be packed elements.
    pub(crate) fn owned(bytes: Vec<u8>) -> PluralElementsPackedCow<'static>
        requires { AreElements bytes.items }
        ensures { ElementsBytes result bytes.items }
    {
        PluralElementsPackedCow {
            bytes: CowSlice::Owned(bytes),
        }
    }
}

impl<'data> PluralElementsPackedCow<'data> {
    /// Returns the packed elements in borrowed bytes. It allocates nothing.
    ///
    /// <!-- snippet crates/tests_libraries/src/tests/icu_plurals_packing.rt:
    ///      example "let packed" to "holds!(rt; packed.as_packed().get_default" of fn lent_bytes_keep_their_metadata -->
    /// ```
    /// let packed = PluralElementsPackedCow::from_bytes(b"\x8f\x01x\x01\0\x13y")?;
    /// assert!(rt; packed.get(PluralOperands::from(1u8), &rules) == "y");
    /// assert!(rt; packed.get(PluralOperands::from(0u8), &rules) == "x");
    /// assert!(rt; packed.as_packed().get_default().0.get() == 15);
    /// ```
    ///
    /// Bytes are refused as [`PluralElementsPackedULE::parse_bytes`] refuses them.
    pub fn from_bytes(
        bytes: &'data [u8],
    ) -> Result<PluralElementsPackedCow<'data>, ElementsBytesError>
        ensures ok { IfOk result (λ packed. ElementsBytes packed bytes.now) }
        ensures accepted { (packed : PackedElements) → ElementsBytes packed bytes.now → result ≡ Ok packed }
        ensures refused { (fault : ElementsBytesError) → (result ≡ Err fault) ↔ HasElementsFault bytes.now fault }
    {
        read_again();
        match PluralElementsPackedULE::parse_bytes(bytes) {
            Ok(_) => Ok(PluralElementsPackedCow::lent(bytes)),
            Err(fault) => Err(fault),
        }
    }

    // The elements in bytes that are known to be packed elements.
    fn lent(bytes: &'data [u8]) -> PluralElementsPackedCow<'data>
        requires { AreElements bytes.now }
        ensures { ElementsBytes result bytes.now }
    {
        PluralElementsPackedCow {
            bytes: CowSlice::Borrowed(bytes),
        }
    }

    /// Returns the same elements, borrowed from these.
    #[inline]
    pub fn as_packed(&self) -> PluralElementsPackedULE<'_>
        ensures { lent_elements result ≡ self.now }
    {
        read_again();
        PluralElementsPackedULE::from_checked(self.bytes.as_slice())
    }

    /// Returns the text for a number, as [`PluralElementsPackedULE::get`] returns it. It allocates
    /// nothing.
    pub fn get(&self, op: PluralOperands, rules: &PluralRules<'_>) -> &str
        ensures { result.now ≡ (element_at (elements_of self.now) op rules.now).text }
    {
        let (_, text) = self.as_packed().get(op, rules);
        text
    }

    /// Returns packed elements of the same bytes: borrowed if these are borrowed, else a copy. The
    /// only error is out of memory.
    pub fn try_clone(&self) -> Result<PluralElementsPackedCow<'data>, AllocError>
        ensures { IfOk result (λ packed. packed ≡ self.now) }
    {
        Ok(PluralElementsPackedCow {
            bytes: self.bytes.clone()?,
        })
    }
}

// The texts, each with metadata 0.
fn plain<'a>(elements: &PluralElements<&'a str>) -> PluralElements<(FourBitMetadata, &'a str)>
    ensures { each_by lent_value result ≡ each_by plain_value elements.now }
{
    PluralElements {
        other: plain_text(elements.other),
        zero: plain_option(&elements.zero),
        one: plain_option(&elements.one),
        two: plain_option(&elements.two),
        few: plain_option(&elements.few),
        many: plain_option(&elements.many),
        explicit_zero: plain_option(&elements.explicit_zero),
        explicit_one: plain_option(&elements.explicit_one),
    }
}

// A text with metadata 0.
fn plain_text(text: &str) -> (FourBitMetadata, &str)
    ensures { lent_value result ≡ plain_value text.entry }
{
    (FourBitMetadata::zero(), text)
}

// A text that may be absent, with metadata 0.
fn plain_option<'a>(text: &Option<&'a str>) -> Option<(FourBitMetadata, &'a str)>
    ensures { option_map lent_value result ≡ option_map plain_value text.now }
{
    match text {
        Some(text) => Some(plain_text(text)),
        None => None,
    }
}

impl<'data> PartialEq for PluralElementsPackedCow<'data> {
    ghost use Rattle.std.specs.Prelude.{◌≡◌, ◌↔◌, IsTrue, nat_eq};
    ghost use Rattle.std.specs.Cmp.{on_per, partial_equiv_from_equiv};
    ghost use Rattle.std.specs.Cmp.Lexicographic.{pointwise, nat_list_eq_equiv};
    ghost use Rattle.icu_plurals.specs.PackedElements.{elements_bytes};

    ghost eq = { λ packed other. pointwise nat_eq (elements_bytes packed) (elements_bytes other) };

    ghost laws = { on_per elements_bytes (partial_equiv_from_equiv nat_list_eq_equiv) };

    // Whether the bytes are the same.
    fn eq(&self, other: &Self) -> bool
        ensures same { result ≡ pointwise nat_eq (elements_bytes self.now) (elements_bytes other.now) }
        ensures equal { IsTrue result ↔ (self.now ≡ other.now) }
    {
        read_again();
        self.bytes.as_slice() == other.bytes.as_slice()
    }
}
