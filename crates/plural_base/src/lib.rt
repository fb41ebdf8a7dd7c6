//! Plural categories, the rules that choose them, and when the choice is exact.
//!
//! In the examples `rt` is the runtime that `main` or a test gets, `alloc` is `rt.alloc()`, and
//! `rules_of` gives rules that have a rule for one alone:
//!
//! <!-- snippet crates/tests_libraries/src/tests/plural_base_rules.rt: example fn rules_of -->
//! ```
//! fn rules_of(alloc: Global, one: &str) -> Result<PluralRules<'static>, RulesTextError> {
//!     let data = PluralRulesData::from_texts(alloc, None, Some(one), None, None, None)?;
//!     Ok(PluralRules::from_data(data))
//! }
//! ```
#![tactic(auto)]

mod category;
mod decimal_choice;
mod elements_pack_error;
mod exactness;
mod five;
mod json;
pub mod laws;
pub mod orders;
mod provider;
mod ranges;
mod rules;
mod rules_with_ranges;
mod sure_choice;
mod text_choice;

pub use category::raw::RawPluralCategory;
pub use category::{AllCategories, PluralCategory};
pub use elements_pack_error::ElementsPackError;
pub use five::Five;
pub use json::error::JsonError;
pub use json::float::holds_float;
pub use json::provider::JsonProvider;
pub use json::rule::{rule_from_json, rule_to_json};
pub use provider::options::{PluralRuleType, PluralRulesOptions};
pub use provider::{DataError, PluralsProvider};
pub use ranges::PluralRanges;
pub use ranges::key::UnvalidatedPluralRange;
pub use rules::PluralRules;
pub use rules::as_plural_rules::AsPluralRules;
pub use rules::asked::AskedRules;
pub use rules::bytes::error::{RulesBytesError, RulesPackError};
pub use rules::categories::Categories;
pub use rules::category_table::CategoryTable;
pub use rules::data::PluralRulesData;
pub use rules::prepared::PreparedRules;
pub use rules::text::RulesTextError;
pub use rules_with_ranges::PluralRulesWithRanges;
pub use sure_choice::{SureCategoryError, sure_category};
