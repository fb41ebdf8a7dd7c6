//! A catalogue, borrowed from the bytes that it is packed in.

ghost use Rattle.std.specs.Prelude.{◌≡◌, ◌↔◌, ◌==◌, List, length, slice_get, option_map, IfOk, Ok, Err};
ghost use Rattle.packed_catalog.specs.CatalogBytes.{CatalogBytes, Entry, value_under};
ghost use Rattle.packed_catalog.specs.CatalogFaults.{HasCatalogBytesFault};

use crate::error::CatalogError;
use crate::finding::find_value;
use crate::numbers::{count_of, data, number, start_of};
use crate::reading::{first_bad_end, first_low_key, piece};
use std::marker::Model;

/// Values by key, borrowed from the bytes that they are packed in.
///
/// The bytes are the count of entries, where each key and each value ends, counted from the first
/// byte of the data, each number in four bytes with the low byte first, and then each key followed
/// by its value, without gaps. The keys rise in the order of their bytes.
#[derive(Debug, Drop)]
pub struct PackedCatalog<'a> {
    bytes: &'a [u8],
}

impl<'a> Model for PackedCatalog<'a> {
    ghost use Rattle.std.specs.Prelude.{List};
    ghost use Rattle.packed_catalog.specs.CatalogBytes.{Entry};

    ghost Value = { List Entry };

    ghost use Rattle.packed_catalog.specs.CatalogBytes.{CatalogBytes};
    ghost use Rattle.packed_catalog.specs.Inner.CatalogReading.{IsBlock, entries_in};

    ghost view = { λ catalog. entries_in catalog.bytes.now };

    ghost invariant = { λ catalog. record {
      block : IsBlock catalog.bytes.now;
      encoded : CatalogBytes (entries_in catalog.bytes.now) catalog.bytes.now;
    } };
}

impl<'a> PackedCatalog<'a> {
    /// Reads bytes as a packed catalogue, in time linear in their number. It allocates nothing.
    ///
    /// The errors, in the order in which they are looked for: fewer bytes than the count and the
    /// ends take ([`CatalogError::Header`]); a last value that doesn't end where the data ends, or
    /// data without an entry ([`CatalogError::Length`]); the first entry whose key or value ends
    /// before it begins ([`CatalogError::End`]); the first entry whose key isn't above the one before
    /// it ([`CatalogError::Order`]).
    pub fn parse_bytes(bytes: &'a [u8]) -> Result<PackedCatalog<'a>, CatalogError>
        ensures ok { IfOk result (λ catalog. CatalogBytes catalog bytes.now) }
        ensures accepted { (entries : List Entry) → CatalogBytes entries bytes.now → result ≡ Ok entries }
        ensures refused { (fault : CatalogError) → (result ≡ Err fault) ↔ HasCatalogBytesFault bytes.now fault }
    {
        let Some(count) = count_of(bytes) else {
            return Err(CatalogError::Header);
        };
        let content = data(bytes);
        if start_of(bytes, 2 * count) != content.len() {
            return Err(CatalogError::Length);
        }
        if let Some(index) = first_bad_end(bytes, count) {
            return Err(CatalogError::End(index));
        }
        if let Some(index) = first_low_key(bytes, content, count) {
            return Err(CatalogError::Order(index));
        }
        Ok(PackedCatalog { bytes })
    }

    /// Returns the bytes that the catalogue is packed in.
    #[inline]
    pub fn as_bytes(&self) -> &'a [u8]
        ensures { CatalogBytes self.now result.now }
    {
        self.bytes
    }

    /// Returns the number of entries.
    #[inline]
    pub fn len(&self) -> usize
        ensures { result ≡ length self.now }
    {
        number(self.bytes, 0)
    }

    /// Returns whether the catalogue has no entry.
    #[inline]
    pub fn is_empty(&self) -> bool
        ensures { result ≡ (length self.now == 0) }
    {
        self.len() == 0
    }

    /// Returns the key of the entry at a place.
    #[inline]
    pub fn key(&self, index: usize) -> Option<&'a [u8]>
        ensures { option_map (λ key. key.now) result ≡ option_map (λ entry. entry.key) (slice_get self.now index) }
    {
        let bytes = self.bytes;
        if index >= number(bytes, 0) {
            return None;
        }
        Some(piece(bytes, data(bytes), 2 * index))
    }

    /// Returns the value of the entry at a place.
    #[inline]
    pub fn value(&self, index: usize) -> Option<&'a [u8]>
        ensures { option_map (λ value. value.now) result ≡ option_map (λ entry. entry.value) (slice_get self.now index) }
    {
        let bytes = self.bytes;
        if index >= number(bytes, 0) {
            return None;
        }
        Some(piece(bytes, data(bytes), 2 * index + 1))
    }

    /// Returns the value under a key. It compares the key with about as many others as the count of
    /// entries has binary digits, and reads where these begin and end.
    pub fn get(&self, key: &[u8]) -> Option<&'a [u8]>
        ensures { option_map (λ value. value.now) result ≡ value_under key.now self.now }
    {
        find_value(self.bytes, key)
    }
}
