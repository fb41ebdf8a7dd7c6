//! Why a row gives no result to compare.

use std::alloc::AllocError;
use std::fmt;

/// Why a row gives no result to compare.
#[derive(Clone, Copy)]
pub enum RowFault {
    /// The line has no `=>`.
    NoArrow,
    /// What stands between the kind and the arrow isn't the inside of a JSON array.
    NotJson,
    /// There is no such kind.
    UnknownKind,
    /// There are fewer arguments than the kind takes.
    ArgumentMissing,
    /// There are more arguments than the kind takes.
    ArgumentLeft,
    /// An argument isn't what is named here.
    Not(&'static str),
    /// Memory ran out.
    Memory,
}

impl fmt::Display for RowFault {
    fn fmt<W: fmt::Write>(&self, f: &mut fmt::Formatter<W>) -> fmt::Result {
        match self {
            RowFault::NoArrow => f.write_str("no =>"),
            RowFault::NotJson => f.write_str("arguments are not JSON"),
            RowFault::UnknownKind => f.write_str("unknown kind"),
            RowFault::ArgumentMissing => f.write_str("argument missing"),
            RowFault::ArgumentLeft => f.write_str("too many arguments"),
            RowFault::Not(form) => write!(f, "argument is not {form}"),
            RowFault::Memory => f.write_str("out of memory"),
        }
    }
}

impl From<AllocError> for RowFault {
    fn from(_: AllocError) -> RowFault {
        RowFault::Memory
    }
}
