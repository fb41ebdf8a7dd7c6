//! Plural rules of languages: the category that a number has, and when it is exact.
//!
//! The crates below are found here under the paths of the original: the rules' data in
//! [`provider`], their text and tree in [`provider::rules::reference`], their packed form in
//! [`provider::rules::runtime`], and all else at the root. In the examples `rt` is the runtime that
//! `main` gets, and `alloc` is `rt.alloc()`.
//!
//! # Rules
//!
//! The rules of a language are read from texts as CLDR writes them, those of Czech from
//!
//! <!-- snippet crates/example_calls/src/texts.rt: fn czech -->
//! ```
//! fn czech(alloc: Global) -> anyhow::Result<PluralRules<'static>> {
//!     let one = Some("i = 1 and v = 0 @integer 1");
//!     let few = Some("i = 2..4 and v = 0 @integer 2~4");
//!     let many = Some("v != 0 @decimal 0.0~1.5, 10.0, 100.0, …");
//!     let data = PluralRulesData::from_texts(alloc, None, one, None, few, many)?;
//!     Ok(PluralRules::from_data(data))
//! }
//! ```
//!
//! A JSON document has rules of several locales, and the categories of their ranges:
//!
//! <!-- snippet crates/example_calls/src/json.rt: const DOCUMENT; fn provider -->
//! ```
//! const DOCUMENT: &str = r#"{
//!     "cardinal": {"en": {"one": "i = 1 and v = 0"}},
//!     "ordinal": {"en": {
//!         "one": "n % 10 = 1 and n % 100 != 11",
//!         "two": "n % 10 = 2 and n % 100 != 12",
//!         "few": "n % 10 = 3 and n % 100 != 13"
//!     }},
//!     "ranges": {"en": {"ranges": {"other--one": "other"}}}
//! }"#;
//!
//! pub(crate) fn provider(alloc: Global) -> anyhow::Result<JsonProvider> {
//!     let value = Value::from_str(alloc, DOCUMENT)?;
//!     Ok(JsonProvider::from_value(alloc, &value)?)
//! }
//! ```
//!
//! # The category of a number
//!
//! <!-- snippet crates/example_calls/src/json.rt: "let ordinal" to "let ordinal" of fn show_places; body of fn print_places -->
//! ```
//! let ordinal = PluralRules::try_new_ordinal_unstable(provider, "en")?;
//!
//! for place in [1u32, 2, 3, 11, 22] {
//!     let category = ordinal.category_for(PluralOperands::from(place));
//!     println!(rt; "{place}: {category:?}")?;
//! }
//! ```
//!
//! prints, in the document's English,
//!
//! <!-- snippet crates/example_calls/stdout: section json -->
//! ```text
//! 1: One
//! 2: Two
//! 3: Few
//! 11: Other
//! 22: Two
//! ```
//!
//! A number with zeros, with an exponent or of any length is a [`CompactDecimal`].
//! [`PluralRules::is_exact_for`] returns whether its category is that of the number itself, and not
//! only of what is kept of it: with the rules of French
//!
//! <!-- snippet crates/example_calls/src/numbers.rt: fn french; "let french" to "let french" of fn show_exactness; body of fn print_exactness -->
//! ```
//! fn french(alloc: Global) -> anyhow::Result<PluralRules<'static>> {
//!     let one = Some("i = 0,1");
//!     let many = Some("e = 0 and i != 0 and i % 1000000 = 0 and v = 0 or e != 0..5");
//!     let data = PluralRulesData::from_texts(alloc, None, one, None, None, many)?;
//!     Ok(PluralRules::from_data(data))
//! }
//!
//! let french = french(alloc)?;
//!
//! for text in [
//!     "100000000000000000000000000000",
//!     "0.000000000000000001",
//!     "0.0000000000000000001",
//! ] {
//!     let number = CompactDecimal::from_str(alloc, text)?;
//!     let category = french.category_for_compact(&number);
//!     let is_exact = french.is_exact_for(&number);
//!     println!(rt; "{text}: {category:?}, exact: {is_exact}")?;
//! }
//! ```
//!
//! prints
//!
//! <!-- snippet crates/example_calls/stdout: section exact -->
//! ```text
//! 100000000000000000000000000000: Many, exact: true
//! 0.000000000000000001: One, exact: true
//! 0.0000000000000000001: One, exact: false
//! ```
//!
//! # Ranges
//!
//! <!-- snippet crates/example_calls/src/ranges.rt: "let english" to "let english" of fn show_ranges; body of fn print_ranges -->
//! ```
//! let english = PluralRulesWithRanges::try_new_cardinal_unstable(provider, "en")?;
//!
//! for (start, end) in [(0u8, 1u8), (1, 2)] {
//!     let start = PluralOperands::from(start);
//!     let end = PluralOperands::from(end);
//!     println!(rt; "{:?}", english.category_for_range(start, end))?;
//! }
//! ```
//!
//! prints
//!
//! <!-- snippet crates/example_calls/stdout: section ranges -->
//! ```text
//! Other
//! Other
//! ```
//!
//! # Elements
//!
//! [`PluralElements`] have a value for each category. Texts may be packed, and read in place:
//!
//! <!-- snippet crates/example_calls/src/elements.rt: "let texts" to "let bytes" of fn show_stored_texts; body of fn print_stored_texts -->
//! ```
//! let texts = PluralElements::new("files").with_one_value(Some("file"));
//! let packed = PluralElementsPackedCow::from_elements(alloc, &texts)?;
//! let bytes = packed.as_packed().as_bytes();
//!
//! let stored = PluralElementsPackedULE::parse_bytes(bytes)?;
//! let (_, text) = stored.get(PluralOperands::from(1u8), rules);
//! println!(rt; "{} bytes: {text}", bytes.len())?;
//! ```
//!
//! prints
//!
//! <!-- snippet crates/example_calls/stdout: section stored -->
//! ```text
//! 14 bytes: file
//! ```
//!
//! # Messages
//!
//! The crate `plural_message`, which a caller names beside this one, puts the number into the text:
//!
//! <!-- snippet crates/example_calls/src/messages.rt: "let texts" to "let message" of fn show_messages; body of fn print_messages -->
//! ```
//! let texts = PluralElements::new("{} files were copied")
//!     .with_one_value(Some("{} file was copied"))
//!     .with_explicit_zero_value(Some("no file was copied"));
//! let packed = PluralElementsPackedCow::from_elements(alloc, &texts)?;
//! let message = Message::new(packed.as_packed());
//!
//! for number in ["0", "1", "1.5"] {
//!     let text = message.format(alloc, number, rules)?;
//!     println!(rt; "{text}")?;
//! }
//! ```
//!
//! prints
//!
//! <!-- snippet crates/example_calls/stdout: section messages -->
//! ```text
//! no file was copied
//! 1 file was copied
//! 1.5 files were copied
//! ```
#![tactic(auto)]

mod cow;
mod elements;
mod elements_json;
mod encode;
pub mod laws;
mod packed;
pub mod provider;

pub use elements::PluralElements;
pub use fixed_decimal::{
    CompactDecimal, Decimal, DecimalError, RoundingMode, Sign, UnsignedDecimal,
};
pub use packed::error::ElementsBytesError;
pub use packed_list::{Items, ListError, PackError, PackedList};
pub use plural_base::{
    AllCategories, AsPluralRules, AskedRules, Categories, CategoryTable, DataError,
    ElementsPackError, Five, JsonError, JsonProvider, PluralCategory, PluralRuleType, PluralRules,
    PluralRulesOptions, PluralRulesWithRanges, PluralsProvider, PreparedRules, RulesBytesError,
    RulesPackError, RulesTextError, SureCategoryError, rule_from_json, rule_to_json, sure_category,
};
pub use plural_reference::{OperandsError, PluralOperands, RawPluralOperands, Sequence};
