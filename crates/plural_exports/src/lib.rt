//! What the library for C exports, in Rust: plural rules over blocks of bytes, and numbers for
//! results and faults.
#![tactic(auto)]

mod arguments;
mod block_categories;
mod buffer;
mod catalog_packing;
mod catalogs;
mod document;
mod element_texts;
mod elements;
mod fault;
mod given;
mod integers;
mod locales;
mod number_category;
mod number_message;
mod operands;
mod packed_patterns;
mod patterns;
mod ranges;
mod rules;
mod signed;
mod sure;
mod table;
mod table_text;
mod whole;

pub use arguments::GivenArgument;
pub use block_categories::categories;
pub use catalog_packing::catalog_pack;
pub use catalogs::{catalog_check, catalog_say};
pub use element_texts::elements_from_texts;
pub use elements::{element, elements_from_json};
pub use integers::categories_of_integers;
pub use locales::find_locale;
pub use number_category::{category, category_of_integer, is_exact};
pub use number_message::message;
pub use operands::category_of_operands;
pub use packed_patterns::{packed_format, pattern_check, pattern_pack};
pub use patterns::pattern_format;
pub use ranges::ranges_from_document;
pub use rules::{check_rules, rules_from_document, rules_from_texts};
pub use signed::category_of_signed_integer;
pub use sure::sure_category;
pub use table::{category_by_table, table_of_rules};
pub use table_text::text_category_by_table;
pub use whole::is_read_whole;
