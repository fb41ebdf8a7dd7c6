//! Laws of the definitions that the contracts name.

ghost use Rattle.po_catalog.specs.FileLines.{NumbersCountNewlines};
ghost use Rattle.po_catalog.specs.KeptIds.{IdsAreKept};
ghost use Rattle.po_catalog.specs.ReadCatalogs.{EveryFileIsACatalog, FilesSayOneCatalog};

/// Each line that [`Lines`](crate::Lines) gives stands in the file, and its number is one more than
/// the newlines before it.
pub fn numbers_count_newlines()
    ensures { NumbersCountNewlines }
{}

/// A file says one catalog: two that it says are the same.
pub fn one_catalog()
    ensures { FilesSayOneCatalog }
{}

/// Each file says a catalog.
pub fn every_file_is_a_catalog()
    ensures { EveryFileIsACatalog }
{}

/// The id of each line that begins with `msgid` is that of a message: it has the line's number, and
/// begins with the line's text.
pub fn ids_are_kept()
    ensures { IdsAreKept }
{}
