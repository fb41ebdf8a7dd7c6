//! Elements as packed bytes.

ghost use Rattle.icu_plurals.specs.Inner.ElementsReading.{AreElements, ElementsBytes-prop, read_elements};

pub(crate) mod error;
mod items;
pub(crate) mod keys;
pub(crate) mod metadata;
mod parts;
mod value;
mod values;

use crate::elements::PluralElements;
use crate::packed::values::Values;
use error::ElementsBytesError;
use metadata::FourBitMetadata;
use packed_list::laws::read_again;
use parts::{check_parts, parts_of};
use plural_base::{PluralRules, PreparedRules};
use plural_reference::PluralOperands;

/// Elements as checked bytes: a default, and either nothing else or a packed list of items after
/// it. Each value is metadata and a text. Two are equal if and only if their bytes are.
///
/// <!-- snippet crates/example_calls/src/calls/packed.rt: fn show_encoded; fn print_encoded -->
/// ```
/// fn show_encoded(rt: &HostRuntime, alloc: Global, rules: &PluralRules<'_>) -> anyhow::Result<()> {
///     let elements = PluralElements::new((FourBitMetadata::zero(), "files")).with_one_value(Some((
///         FourBitMetadata::zero(),
///         "file",
///     )));
///     let bytes = PluralElementsPackedULE::encode(alloc, &elements)?;
///     print_encoded(rt, bytes.as_slice(), rules)
/// }
///
/// fn print_encoded(rt: &HostRuntime, bytes: &[u8], rules: &PluralRules<'_>) -> anyhow::Result<()> {
///     let packed = PluralElementsPackedULE::parse_bytes(bytes)?;
///     for number in [1u8, 2] {
///         let (metadata, text) = packed.get(PluralOperands::from(number), rules);
///         let metadata = metadata.get();
///         println!(rt; "{number}: {text}, {metadata}")?;
///     }
///     Ok(())
/// }
/// ```
///
/// With the rules of English, this prints
///
/// <!-- snippet crates/example_calls/stdout: section encode -->
/// ```text
/// 1: file, 0
/// 2: files, 0
/// ```
#[derive(Clone, Copy, Debug)]
pub struct PluralElementsPackedULE<'a> {
    bytes: &'a [u8],
    ghost checked: { AreElements bytes.now } by { ElementsBytes-prop (read_elements bytes.now) bytes.now },
}

impl<'a> PluralElementsPackedULE<'a> {
    ghost use Rattle.std.specs.Prelude.{◌≡◌, ◌↔◌, IfOk, MatchResult, Err};
    ghost use Rattle.icu_plurals.specs.Elements.{each_by, element_at};
    ghost use Rattle.icu_plurals.specs.PackedElements.{PackedElements, ElementsBytes, elements_of};
    ghost use Rattle.icu_plurals.specs.ElementsFaults.{HasElementsFault};
    ghost use Rattle.icu_plurals.specs.Inner.ElementsReading.{AreElements};
    ghost use Rattle.icu_plurals.specs.Inner.ElementsViews.{lent_value, lent_elements};

    /// Reads bytes as packed elements. It allocates nothing.
    ///
    /// <!-- snippet crates/example_calls/src/elements.rt: "let stored" to "println" of fn print_stored_texts -->
    /// ```
    /// let stored = PluralElementsPackedULE::parse_bytes(bytes)?;
    /// let (_, text) = stored.get(PluralOperands::from(1u8), rules);
    /// println!(rt; "{} bytes: {text}", bytes.len())?;
    /// ```
    ///
    /// The faults, in the order in which they are looked for: no byte
    /// ([`ElementsBytesError::Empty`]); items are to follow, but the length of the default's text
    /// is missing or more than the bytes left ([`ElementsBytesError::Short`]); one of the bits 4 to
    /// 6 of the first byte is set ([`ElementsBytesError::Padding`]); the default isn't UTF-8
    /// ([`ElementsBytesError::DefaultText`]); what follows it isn't a packed list
    /// ([`ElementsBytesError::List`]). Then the first bad item: it has no byte
    /// ([`ElementsBytesError::ItemEmpty`]), its key is above 6 ([`ElementsBytesError::Key`]), or
    /// its text isn't UTF-8 ([`ElementsBytesError::ItemText`]).
    pub fn parse_bytes(bytes: &'a [u8]) -> Result<PluralElementsPackedULE<'a>, ElementsBytesError>
        ensures ok { IfOk result (λ elements. ElementsBytes (lent_elements elements) bytes.now) }
        ensures accepted { (elements : PackedElements) → ElementsBytes elements bytes.now
            → MatchResult result (λ found. lent_elements found ≡ elements) (λ _. ⊥) }
        ensures refused { (fault : ElementsBytesError) → (result ≡ Err fault) ↔ HasElementsFault bytes.now fault }
    {
        read_again();
        let parts = parts_of(bytes)?;
        match check_parts(&parts) {
            Ok(()) => Ok(PluralElementsPackedULE::from_checked(bytes)),
            Err(fault) => Err(fault),
        }
    }

    // The elements in bytes that are known to be packed elements.
    #[inline]
    pub(crate) fn from_checked(bytes: &'a [u8]) -> PluralElementsPackedULE<'a>
        requires { AreElements bytes.now }
        ensures { ElementsBytes (lent_elements result) bytes.now }
    {
        PluralElementsPackedULE { bytes }
    }

    /// Returns the bytes of the elements.
    #[inline]
    pub fn as_bytes(&self) -> &'a [u8]
        ensures { ElementsBytes (lent_elements self.now) result.now }
    {
        self.bytes
    }

    /// Returns the value for a number: the explicit one if the operands are exactly 0 or 1 and it
    /// is present, else that of the category that the rules choose, else the default. If a key
    /// occurs twice, its first item counts. The item is looked up in the bytes; no memory is taken.
    ///
    /// With `packed` as in the example of the type:
    ///
    /// <!-- snippet crates/example_calls/src/calls/packed.rt: "for number" to "}" of fn print_encoded -->
    /// ```
    /// for number in [1u8, 2] {
    ///     let (metadata, text) = packed.get(PluralOperands::from(number), rules);
    ///     let metadata = metadata.get();
    ///     println!(rt; "{number}: {text}, {metadata}")?;
    /// }
    /// ```
    pub fn get(&self, op: PluralOperands, rules: &PluralRules<'_>) -> (FourBitMetadata, &'a str)
        ensures { lent_value result ≡ element_at (elements_of (lent_elements self.now)) op rules.now }
    {
        let values = Values::of_checked(self.bytes);
        match values.explicit_at(op) {
            Some(value) => value,
            None => values.of_category(rules.category_for(op)),
        }
    }

    /// Returns the value for a number as [`PluralElementsPackedULE::get`] does, under prepared
    /// rules: for an integer's operands no rule is tested, where the tables have its category.
    pub fn get_prepared(
        &self,
        op: PluralOperands,
        rules: &PreparedRules<'_>,
    ) -> (FourBitMetadata, &'a str)
        ensures { lent_value result ≡ element_at (elements_of (lent_elements self.now)) op rules.now }
    {
        let all = Values::of_checked(self.bytes);
        match all.explicit_at(op) {
            Some(value) => value,
            None => all.of_category(rules.category_for(op)),
        }
    }

    /// Returns all values by key, borrowed from the bytes. If a key occurs twice, its first item
    /// counts, and a category's value is present even if it equals the default. It allocates
    /// nothing.
    ///
    /// <!-- snippet crates/example_calls/src/calls/packed.rt: body of fn print_decoded -->
    /// ```
    /// let packed = PluralElementsPackedULE::parse_bytes(b"\x85\x05files\x01\0\x10file")?;
    /// let elements = packed.decode();
    /// let (metadata, text) = *elements.other();
    /// let (_, one) = *elements.one();
    /// println!(rt; "{text}, {one}, {}", metadata.get())?;
    /// ```
    ///
    /// This prints
    ///
    /// <!-- snippet crates/example_calls/stdout: section decode -->
    /// ```text
    /// files, file, 5
    /// ```
    pub fn decode(&self) -> PluralElements<(FourBitMetadata, &'a str)>
        ensures { each_by lent_value result ≡ elements_of (lent_elements self.now) }
    {
        Values::of_checked(self.bytes).by_key()
    }

    /// Returns the default.
    ///
    /// <!-- snippet crates/tests_libraries/src/tests/icu_plurals_examples.rt:
    ///      example "let alone" to "holds!" of fn the_default_stands_alone -->
    /// ```
    /// let alone = PluralElementsPackedULE::parse_bytes(b"\x07abc")?;
    /// let (metadata, text) = alone.get_default();
    /// assert!(rt; (metadata.get(), text) == (7, "abc"));
    /// ```
    pub fn get_default(&self) -> (FourBitMetadata, &'a str)
        ensures { lent_value result ≡ (lent_elements self.now).default }
    {
        Values::of_checked(self.bytes).default
    }
}

impl<'a> PartialEq for PluralElementsPackedULE<'a> {
    ghost use Rattle.std.specs.Prelude.{◌≡◌, ◌↔◌, IsTrue, nat_eq};
    ghost use Rattle.std.specs.Cmp.{on_per, partial_equiv_from_equiv};
    ghost use Rattle.std.specs.Cmp.Lexicographic.{pointwise, nat_list_eq_equiv};
    ghost use Rattle.icu_plurals.specs.Inner.ElementsViews.{lent_elements};

    ghost eq = { λ elements other. pointwise nat_eq elements.bytes.now other.bytes.now };

    ghost laws = { on_per (λ elements. elements.bytes.now) (partial_equiv_from_equiv nat_list_eq_equiv) };

    fn eq(&self, other: &Self) -> bool
        ensures same { result ≡ pointwise nat_eq self.now.bytes.now other.now.bytes.now }
        ensures equal { IsTrue result ↔ (lent_elements self.now ≡ lent_elements other.now) }
    {
        self.bytes == other.bytes
    }
}

impl<'a> Eq for PluralElementsPackedULE<'a> {
    ghost use Rattle.std.specs.Cmp.{on_equiv};
    ghost use Rattle.std.specs.Cmp.Lexicographic.{nat_list_eq_equiv};

    ghost laws = { on_equiv (λ elements. elements.bytes.now) nat_list_eq_equiv };
}
