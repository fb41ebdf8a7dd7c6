//! The items that elements are packed as.

ghost use Rattle.std.specs.Prelude.{◌≡◌, ◌+◌, ◌++◌, ◌<◌, ◌≤◌, map, option_map};
ghost use Rattle.std.specs.List.{AllByRecursion};
ghost use Rattle.arrayvec.specs.ArrayVec.{array_vec_len};
ghost use Rattle.icu_plurals.specs.Elements.{each_by};
ghost use Rattle.icu_plurals.specs.Inner.ElementsViews.{lent_value, metadata_number, lent_item_bytes, lent_bytes};
ghost use Rattle.icu_plurals.specs.PackedElements.{IsPackedItem, category_item, is_same_value, item_at, item_bytes, packed_items};

use crate::elements::PluralElements;
use crate::packed::keys;
use crate::packed::metadata::FourBitMetadata;
use arrayvec::ArrayVec;
use packed_list::ByteItem;
use plural_base::for_five;
use std::alloc::AllocError;

// An item of packed elements: the byte of its key and its metadata, and its text.
#[derive(Clone, Copy, Default)]
pub(crate) struct Item<'a> {
    pub(crate) first: u8,
    pub(crate) text: &'a str,
}

impl<'a> ByteItem for Item<'a> {
    ghost item_bytes = { lent_item_bytes };

    #[inline]
    fn byte_count(&self) -> usize {
        1 + self.text.len()
    }

    #[inline]
    fn write_to(&self, bytes: &mut Vec<u8>) -> Result<(), AllocError> {
        bytes.push(self.first)?;
        bytes.extend_from_slice(self.text.as_bytes())
    }
}

// The items of elements: there is at most one for each key.
pub(crate) fn items_of<'a>(
    elements: &PluralElements<(FourBitMetadata, &'a str)>,
) -> ArrayVec<Item<'a>, 7>
    ensures bytes { lent_bytes result.items ≡ map item_bytes (packed_items (each_by lent_value elements.now)) }
    ensures valid { AllByRecursion IsPackedItem (packed_items (each_by lent_value elements.now)) }
{
    let other = elements.other();
    let mut items = ArrayVec::new();
    for_five!(elements, |value, category| {
        push_category(&mut items, category as u8, value, other);
    });
    push_explicit(&mut items, keys::EXPLICIT_ZERO, &elements.explicit_zero);
    push_explicit(&mut items, keys::EXPLICIT_ONE, &elements.explicit_one);
    items
}

// Puts the item of a category's value, if present and unlike that of other.
fn push_category<'a>(
    items: &mut ArrayVec<Item<'a>, 7>,
    key: u8,
    value: &Option<(FourBitMetadata, &'a str)>,
    other: &(FourBitMetadata, &str),
)
    requires room { array_vec_len items.old < 7 }
    requires key { key ≤ 6 }
    ensures bytes { lent_bytes items.new.items ≡ lent_bytes items.old.items
        ++ map item_bytes (category_item key (lent_value other.now) (option_map lent_value value.now)) }
    ensures valid { AllByRecursion IsPackedItem (category_item key (lent_value other.now) (option_map lent_value value.now)) }
    ensures len { array_vec_len items.new ≤ array_vec_len items.old + 1 }
{
    if let Some(value) = value {
        if !is_same(value, other) {
            items.push(item_of(key, value.0, value.1));
        }
    }
}

// Puts the item of an explicit value, if present.
fn push_explicit<'a>(
    items: &mut ArrayVec<Item<'a>, 7>,
    key: u8,
    value: &Option<(FourBitMetadata, &'a str)>,
)
    requires room { array_vec_len items.old < 7 }
    requires key { key ≤ 6 }
    ensures bytes { lent_bytes items.new.items ≡ lent_bytes items.old.items ++ map item_bytes (item_at key (option_map lent_value value.now)) }
    ensures valid { AllByRecursion IsPackedItem (item_at key (option_map lent_value value.now)) }
    ensures len { array_vec_len items.new ≤ array_vec_len items.old + 1 }
{
    if let Some(value) = value {
        items.push(item_of(key, value.0, value.1));
    }
}

// Whether metadata and text are the same.
fn is_same(value: &(FourBitMetadata, &str), other: &(FourBitMetadata, &str)) -> bool
    ensures { result ≡ is_same_value (lent_value value.now) (lent_value other.now) }
{
    value.0 == other.0 && value.1 == other.1
}

// The item of a key, and of metadata and a text.
fn item_of(key: u8, metadata: FourBitMetadata, text: &str) -> Item<'_>
    requires { key ≤ 6 }
    ensures bytes { lent_item_bytes result ≡ item_bytes (record { key = key; value = record { metadata = metadata_number metadata; text = text.entry.now } }) }
    ensures valid { IsPackedItem (record { key = key; value = record { metadata = metadata_number metadata; text = text.entry.now } }) }
{
    Item {
        first: 16 * key + metadata.get(),
        text,
    }
}
