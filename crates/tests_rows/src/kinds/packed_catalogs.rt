//! Catalogues as packed bytes.

use crate::kinds::runs::Runs;
use packed_catalog::{CatalogEntry, PackCatalogError, PackedCatalog, pack};
use row_calls::call::Call;
use std::fmt::Write;

/// Makes the call of a kind of this file. Returns whether there is such a kind.
pub fn make(kind: &str, call: &mut Call) -> bool {
    match kind {
        "packed_catalog" => packed_catalog(call),
        "packed_entries" => packed_entries(call),
        "packed_values" => packed_values(call),
        "packed_catalog_error" => packed_catalog_error(call),
        "packed_catalog_beginnings" => packed_catalog_beginnings(call),
        "packed_catalog_changes" => packed_catalog_changes(call),
        "packed_numbers" => packed_numbers(call),
        _ => return false,
    }
    true
}

// The catalogue of keys and values in turn.
fn packed(call: &mut Call) -> Result<Vec<u8>, PackCatalogError> {
    let mut owned: Vec<Vec<u8>> = Vec::new(call.alloc);
    for item in &call.list() {
        let bytes = call.bytes_of(item);
        call.add_item(&mut owned, bytes);
    }
    let mut entries: Vec<CatalogEntry<'_>> = Vec::new(call.alloc);
    let mut left = owned.as_slice();
    for _ in 0..owned.len() / 2 {
        if let [key, value, others @ ..] = left {
            let (key, value) = (key.as_slice(), value.as_slice());
            call.add_item(&mut entries, CatalogEntry { key, value });
            left = others;
        }
    }
    pack(call.alloc, &entries)
}

// The bytes of a catalogue.
fn packed_catalog(call: &mut Call) {
    match packed(call) {
        Ok(bytes) => call.print_bytes(&bytes),
        Err(error) => call.print_error(&error),
    }
}

// The entries in bytes, if each value is found under its key.
fn packed_entries(call: &mut Call) {
    let bytes = call.bytes();
    match PackedCatalog::parse_bytes(&bytes) {
        Ok(catalog) if catalog.as_bytes() != bytes.as_slice() => call.print("other bytes"),
        Ok(catalog) => print_entries(call, &catalog),
        Err(error) => call.print_error(&error),
    }
}

fn print_entries(call: &mut Call, catalog: &PackedCatalog<'_>) {
    let count = catalog.len();
    for place in 0..count {
        if let (Some(key), Some(value)) = (catalog.key(place), catalog.value(place)) {
            if catalog.get(key) != Some(value) {
                return call.print_alone("another value under a key");
            }
            call.separate(", ");
            call.print("\"");
            call.print_digits(key);
            call.print("\" \"");
            call.print_digits(value);
            call.print("\"");
        }
    }
    if catalog.key(count).is_some() || catalog.value(count).is_some() {
        return call.print_alone("an entry after the last one");
    }
    if catalog.is_empty() {
        call.print("no entries");
    }
}

// The value under each key.
fn packed_values(call: &mut Call) {
    let bytes = call.bytes();
    let keys = call.list();
    match PackedCatalog::parse_bytes(&bytes) {
        Ok(catalog) => {
            for item in &keys {
                let key = call.bytes_of(item);
                call.separate(", ");
                match catalog.get(&key) {
                    Some(value) => call.print_bytes(value),
                    None => call.print("none"),
                }
            }
        }
        Err(error) => call.print_error(&error),
    }
}

// The text of an error.
fn packed_catalog_error(call: &mut Call) {
    let bytes = call.bytes();
    match PackedCatalog::parse_bytes(&bytes) {
        Ok(_) => call.print("none"),
        Err(error) => call.print_value(&error),
    }
}

// What each beginning of bytes is.
fn packed_catalog_beginnings(call: &mut Call) {
    let bytes = call.bytes();
    let bytes = bytes.as_slice();
    let mut runs = Runs::new(call);
    for end in 0..=bytes.len() {
        match PackedCatalog::parse_bytes(&bytes[..end]) {
            Ok(_) => call.print("catalogue"),
            Err(error) => call.print_error(&error),
        }
        runs.take(call);
    }
    runs.print(call);
}

// What bytes are with one bit changed, for each bit: how many are refused, and how many catalogues.
fn packed_catalog_changes(call: &mut Call) {
    let mut bytes = call.bytes();
    let mut refused: u64 = 0;
    let mut accepted: u64 = 0;
    for place in 0..bytes.len() {
        for bit in [1u8, 2, 4, 8, 16, 32, 64, 128] {
            flip(&mut bytes, place, bit);
            match PackedCatalog::parse_bytes(&bytes) {
                Ok(_) => accepted = accepted.wrapping_add(1),
                Err(_) => refused = refused.wrapping_add(1),
            }
            flip(&mut bytes, place, bit);
        }
    }
    let _ = write!(call, "{refused} refused, {accepted} catalogues");
}

// Changes a byte by a bit.
fn flip(bytes: &mut Vec<u8>, place: usize, bit: u8) {
    if let Some(byte) = bytes.get_mut(place) {
        *byte ^= bit;
    }
}

// How many bytes the catalogue of numbers has, and how many of these are found in it.
fn packed_numbers(call: &mut Call) {
    let count = call.number();
    let value = call.bytes();
    let mut keys: Vec<[u8; 2]> = Vec::new(call.alloc);
    for number in 0..count {
        call.add_item(
            &mut keys,
            [(number / 256 % 256) as u8, (number % 256) as u8],
        );
    }
    let mut entries: Vec<CatalogEntry<'_>> = Vec::new(call.alloc);
    for key in &keys {
        let value = value.as_slice();
        call.add_item(&mut entries, CatalogEntry { key, value });
    }
    match pack(call.alloc, &entries) {
        Ok(bytes) => {
            call.print_size(&bytes);
            let found = count_found(&bytes, &keys);
            let _ = write!(call, ", {found} found");
        }
        Err(error) => call.print_error(&error),
    }
}

// How many keys are found in bytes.
fn count_found(bytes: &[u8], keys: &[[u8; 2]]) -> u64 {
    let mut found: u64 = 0;
    if let Ok(catalog) = PackedCatalog::parse_bytes(bytes) {
        for key in keys {
            if catalog.get(key).is_some() {
                found = found.wrapping_add(1);
            }
        }
    }
    found
}
