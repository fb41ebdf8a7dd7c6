//! A value of packed elements: read in place, found by its key, and put among others.

ghost use Rattle.std.specs.Prelude.{◌≡◌, ◌%◌, ◌≤◌, IsTrue, Some, map, option_map};
ghost use Rattle.std.specs.List.{list_all};
ghost use Rattle.std.specs.Option.{option_or};
ghost use Rattle.std.specs.Str.{is_utf8};
ghost use Rattle.icu_plurals.specs.Elements.{each_by};
ghost use Rattle.icu_plurals.specs.PackedElements.{value_of_key};
ghost use Rattle.icu_plurals.specs.Inner.ElementsReading.{is_item, read_item, with_item};
ghost use Rattle.icu_plurals.specs.Inner.ElementsViews.{lent_value};

use crate::elements::PluralElements;
use crate::packed::keys;
use crate::packed::metadata::FourBitMetadata;
use packed_list::PackedList;
use std::str;

// The metadata in bits 0 to 3 of a byte, and the text in bytes that were found to be UTF-8.
#[inline]
pub(crate) fn value_of(first: u8, text: &[u8]) -> (FourBitMetadata, &str)
    requires { IsTrue (is_utf8 text.now) }
    ensures { lent_value result ≡ record { metadata = first % 16; text = text.now } }
{
    let metadata = FourBitMetadata::of_low_bits(first);
    (metadata, unsafe { str::from_utf8_unchecked(text) })
}

// The key and the value of an item that was found to be good.
#[inline]
pub(crate) fn keyed_value(item: &[u8]) -> (u8, (FourBitMetadata, &str))
    requires { IsTrue (is_item item.now) }
    ensures key { result.0 ≡ (read_item item.now).key }
    ensures value { lent_value result.1 ≡ (read_item item.now).value }
    ensures below { result.0 ≤ 6 }
{
    let Some((first, text)) = item.split_first() else {
        unreachable!();
    };
    (*first / 16, value_of(*first, text))
}

// The value of the first item that has a key.
pub(crate) fn find_value<'a>(list: &PackedList<'a>, key: u8) -> Option<(FourBitMetadata, &'a str)>
    requires { IsTrue (list_all is_item list.now) }
    ensures { option_map lent_value result ≡ value_of_key key (map read_item list.now) }
{
    for item in list.iter() {
        let (found, value) = keyed_value(item);
        if found == key {
            return Some(value);
        }
    }
    None
}

// Puts the value of a key, unless one is present.
pub(crate) fn put_value<'a>(
    elements: &mut PluralElements<(FourBitMetadata, &'a str)>,
    key: u8,
    value: (FourBitMetadata, &'a str),
)
    requires { key ≤ 6 }
    ensures { each_by lent_value elements.new ≡ with_item (each_by lent_value elements.old) (record { key = key; value = lent_value value.entry }) }
{
    match key {
        keys::ZERO => put_first(&mut elements.zero, value),
        keys::ONE => put_first(&mut elements.one, value),
        keys::TWO => put_first(&mut elements.two, value),
        keys::FEW => put_first(&mut elements.few, value),
        keys::MANY => put_first(&mut elements.many, value),
        keys::EXPLICIT_ZERO => put_first(&mut elements.explicit_zero, value),
        _ => put_first(&mut elements.explicit_one, value),
    }
}

// Puts a value, unless one is present.
fn put_first<'a>(place: &mut Option<(FourBitMetadata, &'a str)>, value: (FourBitMetadata, &'a str))
    ensures { place.new ≡ option_or place.old (Some value.entry) }
{
    if place.is_none() {
        *place = Some(value);
    }
}
