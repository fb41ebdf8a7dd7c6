//! Messages with a number in them: the text for the number's plural category, with the number in
//! the place of each `{}`.
//!
//! <!-- snippet crates/example_calls/src/items.rt: imports; fn print_items -->
//! ```
//! use icu_plurals::provider::{PluralElementsPackedCow, PluralRulesData};
//! use icu_plurals::{PluralElements, PluralRules};
//! use plural_message::Message;
//! use std::alloc::Global;
//!
//! pub(crate) fn print_items(rt: &HostRuntime, alloc: Global) -> anyhow::Result<()> {
//!     let one = Some("i = 1 and v = 0");
//!     let data = PluralRulesData::from_texts(alloc, None, one, None, None, None)?;
//!     let rules = PluralRules::from_data(data);
//!     let texts = PluralElements::new("{} items").with_one_value(Some("{} item"));
//!     let packed = PluralElementsPackedCow::from_elements(alloc, &texts)?;
//!     let message = Message::new(packed.as_packed());
//!     for number in ["0", "1", "1.0", "2"] {
//!         let text = message.format(alloc, number, &rules)?;
//!         println!(rt; "{text}")?;
//!     }
//!     Ok(())
//! }
//! ```
//!
//! prints
//!
//! <!-- snippet crates/example_calls/stdout: section items -->
//! ```text
//! 0 items
//! 1 item
//! 1.0 items
//! 2 items
//! ```
#![tactic(auto)]

mod error;
mod fill;
mod fill_into;
pub mod laws;
mod message;

pub use error::MessageError;
pub use message::Message;
