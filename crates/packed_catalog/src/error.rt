//! Why bytes aren't a catalogue, and why entries can't be packed.

ghost use Rattle.std.specs.Prelude.{◌++◌, Some, codes};
ghost use Rattle.std.specs.Fmt.{DisplaysOnOk, decimal};

use std::error::Error;
use std::fmt;

/// Why bytes aren't a packed catalogue.
#[derive(Clone, Copy, Debug, PartialEq, Eq)]
pub enum CatalogError {
    /// There are fewer bytes than the count of entries and the ends take.
    Header,
    /// The last value doesn't end where the data ends, or there is data and no entry.
    Length,
    /// The key or the value of the entry at this place ends before it begins.
    End(usize),
    /// The key of the entry at this place isn't above the key before it.
    Order(usize),
}

impl fmt::Display for CatalogError {
    ghost use Rattle.std.specs.Prelude.{Some};
    ghost use Rattle.packed_catalog.specs.CatalogFaults.{catalog_error_text};

    ghost output = { λ error. Some (catalog_error_text error) };

    fn fmt<W: fmt::Write>(&self, f: &mut fmt::Formatter<W>) -> fmt::Result {
        match self {
            CatalogError::Header => f.write_str("catalogue header too short"),
            CatalogError::Length => f.write_str("catalogue of another length"),
            CatalogError::End(place) => write!(f, "bad end in entry {place}"),
            CatalogError::Order(place) => write_order(f, *place),
        }
    }
}

impl Error for CatalogError {}

/// Why entries can't be packed.
#[derive(Clone, Copy, Debug, PartialEq, Eq)]
pub enum PackCatalogError {
    /// The entries are more than 4294967295.
    TooMany,
    /// The key of the entry at this place isn't above the key before it.
    Order(usize),
    /// The keys and values take more than 4294967295 bytes together.
    TooLong,
    /// Out of memory.
    Memory,
}

impl fmt::Display for PackCatalogError {
    ghost use Rattle.std.specs.Prelude.{Some};
    ghost use Rattle.packed_catalog.specs.CatalogFaults.{pack_catalog_error_text};

    ghost output = { λ error. Some (pack_catalog_error_text error) };

    fn fmt<W: fmt::Write>(&self, f: &mut fmt::Formatter<W>) -> fmt::Result {
        match self {
            PackCatalogError::TooMany => f.write_str("too many entries"),
            PackCatalogError::Order(place) => write_order(f, *place),
            PackCatalogError::TooLong => f.write_str("catalogue too long"),
            PackCatalogError::Memory => f.write_str("out of memory"),
        }
    }
}

impl Error for PackCatalogError {}

// Writes that an entry is out of order.
fn write_order<W: fmt::Write>(f: &mut fmt::Formatter<W>, place: usize) -> fmt::Result
    ensures { DisplaysOnOk W.write_str_gives f.old result (Some (codes "entry " ++ decimal place ++ codes " out of order")) f.new }
{
    write!(f, "entry {place} out of order")
}
