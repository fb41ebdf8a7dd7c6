//! Why no rules are found along a chain.

use std::error::Error;
use std::fmt;

/// Why a chain gives nothing.
#[derive(Clone, Copy, Debug, PartialEq, Eq)]
pub enum FallbackError {
    /// No locale of the chain has a key.
    NotFound,
    /// The chain goes on after [`MOST_LOCALES`](crate::MOST_LOCALES) locales, none of which has a
    /// key. So it does if the parents lead back to a locale.
    LongChain,
    /// The provider has nothing under the key that was found.
    NotLoaded,
}

impl fmt::Display for FallbackError {
    ghost use Rattle.std.specs.Prelude.{Some};
    ghost use Rattle.plural_fallback.specs.FirstKeys.{fallback_error_text};

    ghost output = { λ error. Some (fallback_error_text error) };

    fn fmt<W: fmt::Write>(&self, f: &mut fmt::Formatter<W>) -> fmt::Result {
        match self {
            FallbackError::NotFound => f.write_str("no locale of the chain is found"),
            FallbackError::LongChain => f.write_str("the chain of parents doesn't end"),
            FallbackError::NotLoaded => f.write_str("nothing is loaded for the key"),
        }
    }
}

impl Error for FallbackError {}
