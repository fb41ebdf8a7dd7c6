//! Packs elements.

ghost use Rattle.std.specs.Prelude.{◌≡◌, ◌≢◌, ◌↔◌, ◌^◌, ◌<◌, ◌≤◌, ◌++◌, Err, Some, IfOk, OnOk, IsTrue, length};
ghost use Rattle.packed_list.specs.ListBytes.{CanPack, has_high_start};
ghost use Rattle.icu_plurals.specs.Elements.{each_by};
ghost use Rattle.icu_plurals.specs.PackedElements.{AnswersAs, pack_fault, ElementsBytes, IsPackedValue, packed_of};
ghost use Rattle.icu_plurals.specs.Inner.ElementsReading.{bytes_with_items, head_with};
ghost use Rattle.icu_plurals.specs.Inner.ElementsViews.{lent_value, lent_bytes, metadata_number};

mod items;

use crate::elements::PluralElements;
use crate::packed::PluralElementsPackedULE;
use crate::packed::metadata::FourBitMetadata;
use items::{Item, items_of};
use packed_list::ListWriter;
use packed_list::laws::read_again;
use plural_base::ElementsPackError;
use std::alloc::{AllocError, Global};

impl PluralElementsPackedULE<'_> {
    /// Returns the bytes of elements, made by one allocation. The explicit values are packed, and
    /// those of the categories that differ from that of other in metadata or text; the value of
    /// other is the default.
    ///
    /// <!-- snippet crates/example_calls/src/calls/packed.rt:
    ///      "let elements" to "let bytes" of fn show_encoded -->
    /// ```
    /// let elements = PluralElements::new((FourBitMetadata::zero(), "files")).with_one_value(Some((
    ///     FourBitMetadata::zero(),
    ///     "file",
    /// )));
    /// let bytes = PluralElementsPackedULE::encode(alloc, &elements)?;
    /// ```
    ///
    /// The errors, in the order in which they are looked for: the default has more than 255 bytes,
    /// and an item is packed too ([`ElementsPackError::DefaultLimit`]); an item would start after
    /// place 65535 of the data ([`ElementsPackError::StartLimit`]); out of memory
    /// ([`ElementsPackError::Memory`]).
    pub fn encode(
        alloc: Global,
        elements: &PluralElements<(FourBitMetadata, &str)>,
    ) -> Result<Vec<u8>, ElementsPackError>
        ensures ok { IfOk result (λ bytes. ElementsBytes (packed_of (each_by lent_value elements.now)) bytes.items) }
        // The bytes give every number the same value as the elements.
        ensures answers { IfOk result (λ bytes. AnswersAs (each_by lent_value elements.now) bytes.items) }
        ensures default_limit { (result ≡ Err ElementsPackError.DefaultLimit)
            ↔ (pack_fault (packed_of (each_by lent_value elements.now)) ≡ Some ElementsPackError.DefaultLimit) }
        ensures start_limit { (result ≡ Err ElementsPackError.StartLimit)
            ↔ (pack_fault (packed_of (each_by lent_value elements.now)) ≡ Some ElementsPackError.StartLimit) }
    {
        read_again();
        let default = elements.other();
        let items = items_of(elements);
        let items = items.as_slice();
        let list = list_beside(default, items)?;
        match written(alloc, default, items, &list) {
            Ok(bytes) => Ok(bytes),
            Err(AllocError) => Err(ElementsPackError::Memory),
        }
    }
}

// The list of the items after a default, if they can be packed.
fn list_beside<'a, 'b>(
    default: &(FourBitMetadata, &str),
    items: &'b [Item<'a>],
) -> Result<ListWriter<&'b [Item<'a>]>, ElementsPackError>
    requires { length items.now ≤ 7 }
    ensures list { IfOk result (λ list. list ≡ lent_bytes items.now) }
    ensures starts { IfOk result (λ _. CanPack (lent_bytes items.now)) }
    ensures default { IfOk result (λ _. 0 < length items.now → length default.now.1.now ≤ 255) }
    ensures default_limit { (result ≡ Err ElementsPackError.DefaultLimit) ↔ ((0 < length items.now) × (255 < length default.now.1.now)) }
    ensures start_limit { (result ≡ Err ElementsPackError.StartLimit) ↔ ((length default.now.1.now ≤ 255) × IsTrue (has_high_start (lent_bytes items.now))) }
    ensures memory { result ≢ Err ElementsPackError.Memory }
{
    if !items.is_empty() && default.1.len() > 255 {
        return Err(ElementsPackError::DefaultLimit);
    }
    match ListWriter::new(items) {
        Ok(list) => Ok(list),
        Err(_) => Err(ElementsPackError::StartLimit),
    }
}

// The bytes of a default and the list of the items after it.
fn written(
    alloc: Global,
    default: &(FourBitMetadata, &str),
    items: &[Item<'_>],
    list: &ListWriter<&[Item<'_>]>,
) -> Result<Vec<u8>, AllocError>
    requires default { 0 < length items.now → length default.now.1.now ≤ 255 }
    requires list { list.now ≡ lent_bytes items.now }
    ensures valid { IfOk result (λ _. IsPackedValue (lent_value default.now)) }
    ensures bytes { IfOk result (λ bytes. bytes.items ≡ bytes_with_items (lent_value default.now) (lent_bytes items.now)) }
{
    let text = default.1;
    let size = if items.is_empty() {
        1 + text.len()
    } else {
        2 + text.len() + list.byte_count()
    };
    let mut bytes = Vec::with_capacity(alloc, size)?;
    push_head(&mut bytes, default, items)?;
    bytes.extend_from_slice(text.as_bytes())?;
    list.write_to(&mut bytes)?;
    Ok(bytes)
}

// Puts what is before the text of a default.
fn push_head(
    bytes: &mut Vec<u8>,
    default: &(FourBitMetadata, &str),
    items: &[Item<'_>],
) -> Result<(), AllocError>
    requires { 0 < length items.now → length default.now.1.now ≤ 255 }
    ensures metadata { metadata_number default.now.0 < 16 }
    ensures head { OnOk result (bytes.new.items ≡ bytes.old.items ++ head_with (lent_value default.now) (lent_bytes items.now)) }
{
    let (metadata, text) = *default;
    let metadata = metadata.get();
    if items.is_empty() {
        bytes.push(metadata)?;
    } else {
        bytes.push(128 + metadata)?;
        bytes.push(text.len() as u8)?;
    }
    Ok(())
}
