//! The items after the default of packed elements.

ghost use Rattle.std.specs.Prelude.{◌≡◌, ◌/◌, ◌%◌, ◌<◌, ◌≤◌, length, MatchResult, IsOk, IsTrue, Err};
ghost use Rattle.std.specs.Str.{is_utf8};
ghost use Rattle.icu_plurals.specs.ElementsFaults.{HasItemsFault, first_element_fault, element_fault};
ghost use Rattle.icu_plurals.specs.Inner.ElementsReading.{AreGoodItems};

use crate::packed::error::ElementsBytesError;
use packed_list::PackedList;
use std::str;

// What is wrong with the list of items.
pub(crate) fn check_items(rest: &[u8]) -> Result<(), ElementsBytesError>
    ensures sound { MatchResult result (λ _. AreGoodItems rest.now) (λ fault. HasItemsFault rest.now fault) }
    ensures only { (fault : ElementsBytesError) → HasItemsFault rest.now fault → result ≡ Err fault }
    ensures good { AreGoodItems rest.now → IsOk result }
{
    let list = match PackedList::parse_bytes(rest) {
        Ok(list) => list,
        Err(fault) => return Err(ElementsBytesError::List(fault)),
    };
    match first_fault_of(&list) {
        Some(fault) => Err(fault),
        None => Ok(()),
    }
}

// What is wrong with the first bad item.
fn first_fault_of(list: &PackedList<'_>) -> Option<ElementsBytesError>
    requires { length list.now ≤ 65535 }
    ensures { result ≡ first_element_fault 0 list.now }
{
    for (index, item) in list.iter().enumerate() {
        let fault = fault_of(index, item);
        if fault.is_some() {
            return fault;
        }
    }
    None
}

// What is wrong with the item at a place.
fn fault_of(place: usize, item: &[u8]) -> Option<ElementsBytesError>
    ensures { result ≡ element_fault place item.now }
{
    let Some((first, text)) = item.split_first() else {
        return Some(ElementsBytesError::ItemEmpty(place));
    };
    if *first / 16 > 6 {
        return Some(ElementsBytesError::Key(place));
    }
    if !is_text(text) {
        return Some(ElementsBytesError::ItemText(place));
    }
    None
}

// Whether bytes are UTF-8.
pub(crate) fn is_text(bytes: &[u8]) -> bool
    ensures { result ≡ is_utf8 bytes.now }
{
    str::from_utf8(bytes).is_ok()
}
