//! Rules, ranges and documents as JSON.

mod category_values;
mod checks;
pub(crate) mod error;
pub(crate) mod float;
mod known_rules;
mod locale;
pub(crate) mod provider;
mod ranges;
mod rows;
pub(crate) mod rule;
mod rules;
mod sorted_rows;
