//! The words of the command line.

pub use plural_queries::arguments::arguments;
