//! Why bytes are refused as packed elements.

use packed_list::ListError;
use std::error::Error;
use std::fmt;

/// Why bytes aren't packed elements. The causes down to [`List`] are looked for in this order; then
/// the first bad item is named, with the first of the last three that it has.
///
/// [`List`]: ElementsBytesError::List
#[derive(Clone, Copy, Debug, PartialEq, Eq)]
pub enum ElementsBytesError {
    /// There is no byte.
    Empty,
    /// Items are to follow, and the length of the default's text is missing, or is more than the
    /// bytes left.
    Short,
    /// One of the bits 4 to 6 of the first byte is set.
    Padding,
    /// The default's text isn't UTF-8.
    DefaultText,
    /// What follows the default isn't a packed list.
    List(ListError),
    /// The item at this place has no byte.
    ItemEmpty(usize),
    /// The item at this place has a key above 6.
    Key(usize),
    /// The text of the item at this place isn't UTF-8.
    ItemText(usize),
}

impl fmt::Display for ElementsBytesError {
    ghost use Rattle.std.specs.Prelude.{Some};
    ghost use Rattle.icu_plurals.specs.ElementsFaults.{elements_bytes_error_text};

    ghost output = { λ error. Some (elements_bytes_error_text error) };

    fn fmt<W: fmt::Write>(&self, f: &mut fmt::Formatter<W>) -> fmt::Result {
        match self {
            ElementsBytesError::Empty => f.write_str("elements without a byte"),
            ElementsBytesError::Short => f.write_str("default of elements too short"),
            ElementsBytesError::Padding => f.write_str("bad first byte of elements"),
            ElementsBytesError::DefaultText => f.write_str("default of elements is not UTF-8"),
            ElementsBytesError::List(fault) => write!(f, "{fault}"),
            ElementsBytesError::ItemEmpty(place) => write!(f, "element {place} without a byte"),
            ElementsBytesError::Key(place) => write!(f, "bad key of element {place}"),
            ElementsBytesError::ItemText(place) => write!(
                f,
                "text of element {place} is not UTF-8"
            ),
        }
    }
}

impl Error for ElementsBytesError {}
