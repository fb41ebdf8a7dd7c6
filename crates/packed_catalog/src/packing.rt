//! Packs entries.

ghost use Rattle.std.specs.Prelude.{◌≡◌, ◌↔◌, ◌≤◌, ◌<◌, ◌+◌, ◌*◌, ◌^◌, ◌++◌, ◌∷◌, ℕ, suc, Err, IfNone, IfOk, IfSome, IsTrue, OnOk, flat_map, length, slice_index_or};
ghost use Rattle.std.specs.List.{concat};
ghost use Rattle.packed_catalog.specs.CatalogBytes.{AreSorted, CatalogBytes, catalog_bytes, ends_from, four_bytes, entry_keys_of, lent_entries, pieces_of};
ghost use Rattle.packed_catalog.specs.CatalogFaults.{IsFirstLow};

use crate::entry::CatalogEntry;
use crate::error::PackCatalogError;
use crate::reading::is_below;
use std::alloc::{AllocError, Global};

/// Returns the bytes of a catalogue of entries in the order of their keys, made by one allocation.
///
/// The errors, in the order in which they are looked for: more than 4294967295 entries
/// ([`PackCatalogError::TooMany`]); the first entry whose key isn't above the one before it
/// ([`PackCatalogError::Order`]); keys and values that take more than 4294967295 bytes together
/// ([`PackCatalogError::TooLong`]); out of memory ([`PackCatalogError::Memory`]).
pub fn pack(alloc: Global, entries: &[CatalogEntry<'_>]) -> Result<Vec<u8>, PackCatalogError>
    ensures ok { IfOk result (λ bytes. CatalogBytes (lent_entries entries.now) bytes.items) }
    ensures too_many { (result ≡ Err PackCatalogError.TooMany) ↔ (2 ^ 32 ≤ length entries.now) }
    ensures order { (index : ℕ) → (result ≡ Err (PackCatalogError.Order index))
        ↔ ((length entries.now < 2 ^ 32) × IsFirstLow (lent_entries entries.now) index) }
    ensures too_long { (result ≡ Err PackCatalogError.TooLong)
        ↔ ((length entries.now < 2 ^ 32) × AreSorted (lent_entries entries.now) × (2 ^ 32 ≤ length (concat (pieces_of (lent_entries entries.now))))) }
{
    if entries.len() > 4294967295 {
        return Err(PackCatalogError::TooMany);
    }
    if let Some(index) = first_low_entry(entries) {
        return Err(PackCatalogError::Order(index));
    }
    let Some(total) = data_length(entries) else {
        return Err(PackCatalogError::TooLong);
    };
    match written(alloc, entries, total) {
        Ok(bytes) => Ok(bytes),
        Err(_) => Err(PackCatalogError::Memory),
    }
}

// The first entry whose key isn't above the one before it.
fn first_low_entry(entries: &[CatalogEntry<'_>]) -> Option<usize>
    ensures none { IfNone result (AreSorted (lent_entries entries.now)) }
    ensures some { IfSome result (λ index. IsFirstLow (lent_entries entries.now) index) }
{
    for index in 1..entries.len() {
        if !is_below(entries[index - 1].key, entries[index].key) {
            return Some(index);
        }
    }
    None
}

// How many bytes the keys and values take, if four bytes hold it.
fn data_length(entries: &[CatalogEntry<'_>]) -> Option<usize>
    ensures none { IfNone result (2 ^ 32 ≤ length (concat (pieces_of (lent_entries entries.now)))) }
    ensures some { IfSome result (λ total. total ≡ length (concat (pieces_of (lent_entries entries.now)))) }
    ensures bound { IfSome result (λ total. total < 2 ^ 32) }
{
    let mut total = 0;
    for entry in entries {
        total = sum(sum(total, entry.key)?, entry.value)?;
    }
    Some(total)
}

// A length with that of a piece, if four bytes hold the sum.
fn sum(total: usize, piece: &[u8]) -> Option<usize>
    requires { total < 2 ^ 32 }
    ensures none { IfNone result (2 ^ 32 ≤ total + length piece.now) }
    ensures some { IfSome result (λ sum. sum ≡ total + length piece.now) }
    ensures bound { IfSome result (λ sum. sum < 2 ^ 32) }
{
    let sum = total + piece.len();
    if sum > 4294967295 {
        return None;
    }
    Some(sum)
}

// The bytes of entries.
fn written(alloc: Global, entries: &[CatalogEntry<'_>], total: usize) -> Result<Vec<u8>, AllocError>
    requires count { length entries.now < 2 ^ 32 }
    requires total { total ≡ length (concat (pieces_of (lent_entries entries.now))) }
    requires bound { total < 2 ^ 32 }
    ensures { IfOk result (λ bytes. bytes.items ≡ catalog_bytes (lent_entries entries.now)) }
{
    let mut bytes = Vec::with_capacity(alloc, 4 + 8 * entries.len() + total)?;
    push_number(&mut bytes, entries.len())?;
    push_ends(&mut bytes, entries)?;
    push_data(&mut bytes, entries)?;
    Ok(bytes)
}

// Writes a number as four bytes, low byte first.
fn push_number(bytes: &mut Vec<u8>, n: usize) -> Result<(), AllocError>
    requires { n < 2 ^ 32 }
    ensures { OnOk result (bytes.new.items ≡ bytes.old.items ++ four_bytes n) }
{
    let digits = [
        (n % 256) as u8,
        (n / 256 % 256) as u8,
        (n / 256 / 256 % 256) as u8,
        (n / 256 / 256 / 256) as u8,
    ];
    bytes.extend_from_slice(&digits)
}

// Writes where each key and each value ends.
fn push_ends(bytes: &mut Vec<u8>, entries: &[CatalogEntry<'_>]) -> Result<(), AllocError>
    requires { length (concat (pieces_of (lent_entries entries.now))) < 2 ^ 32 }
    ensures { OnOk result (bytes.new.items ≡ bytes.old.items ++ flat_map four_bytes (ends_from 0 (pieces_of (lent_entries entries.now)))) }
{
    let mut end = 0;
    for entry in entries {
        end = push_both_ends(bytes, end, entry)?;
    }
    Ok(())
}

// Writes where the key that begins there and its value end. Returns where the value ends.
fn push_both_ends(
    bytes: &mut Vec<u8>,
    start: usize,
    entry: &CatalogEntry<'_>,
) -> Result<usize, AllocError>
    requires { start + (length entry.now.key.now + length entry.now.value.now) < 2 ^ 32 }
    ensures written { IfOk result (λ end. bytes.new.items ≡ bytes.old.items ++ (four_bytes (start + length entry.now.key.now) ++ four_bytes end)) }
    ensures end { IfOk result (λ end. end ≡ start + length entry.now.key.now + length entry.now.value.now) }
{
    let mut end = start + entry.key.len();
    push_number(bytes, end)?;
    end += entry.value.len();
    push_number(bytes, end)?;
    Ok(end)
}

// Writes the keys and values without gaps.
fn push_data(bytes: &mut Vec<u8>, entries: &[CatalogEntry<'_>]) -> Result<(), AllocError>
    ensures { OnOk result (bytes.new.items ≡ bytes.old.items ++ concat (pieces_of (lent_entries entries.now))) }
{
    for entry in entries {
        bytes.extend_from_slice(entry.key)?;
        bytes.extend_from_slice(entry.value)?;
    }
    Ok(())
}
