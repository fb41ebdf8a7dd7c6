//! Seven small callers of `icu_plurals`, `plural_message`, `message_report` and `message_format`,
//! each proved from their public contracts alone.
#![tactic(auto)]

mod compact_units;
mod formatter;
mod notices;
mod range_labels;
mod relative_time;
mod store;
mod translation;

pub use compact_units::CompactUnits;
pub use formatter::Formatter;
pub use notices::{NoticeError, notice};
pub use range_labels::{RangeLabels, ShownNumber};
pub use relative_time::RelativeTime;
pub use store::Store;
pub use translation::is_complete;
