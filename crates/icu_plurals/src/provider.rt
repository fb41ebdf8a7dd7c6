//! The data of plural rules.

pub mod rules;

pub use crate::cow::PluralElementsPackedCow;
pub use crate::packed::PluralElementsPackedULE;
pub use crate::packed::metadata::FourBitMetadata;
pub use plural_base::{PluralRanges, PluralRulesData, RawPluralCategory, UnvalidatedPluralRange};
pub use plural_reference::is_read_whole;
