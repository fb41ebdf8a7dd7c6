//! The rules of a locale that has none of its own: those of the first locale of its chain that has
//! some.
#![tactic(auto)]

mod chain;
mod error;
mod first_key;
mod json;
mod locale;
mod locales;
mod provider;
mod unknown;

pub use chain::next_locale;
pub use error::FallbackError;
pub use first_key::{MOST_LOCALES, find_first};
pub use json::MOST_LOOKED_UP;
pub use locale::{is_same, language};
pub use locales::{Locales, Part};
pub use provider::{FallbackProvider, Loaded};
pub use unknown::{is_known, is_unknown};
