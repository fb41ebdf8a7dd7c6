//! Checks the texts of a language's plural rules against their samples (UTS 35 Part 3, Samples).
//! Reports what can't be read, what isn't read, and each sample that is listed under a category
//! other than its own.
#![tactic(auto)]

mod category_samples;
mod check;
mod coverage;
mod fault;
mod list_order;
mod number_check;
mod number_count;
mod number_text;
mod printed_rule;
mod range_check;
mod read_text;
mod reading;
mod report;
mod sample;
mod sample_range;
mod sample_words;
mod short_number;
mod text_check;
mod texts;

pub use category_samples::first_samples;
pub use check::check_texts;
pub use coverage::{CategorySet, Coverage};
pub use fault::{Fault, RangeFault, SampleFault, SampleType, TextFault};
pub use number_categories::{
    LeastNumbers, NumberFault, TwoNumbers, WHOLE_LIMIT, least_from, least_of_each, two_least,
    two_least_of_each,
};
pub use printed_rule::PrintedRule;
pub use report::Report;
pub use sample::Sample;
pub use sample_range::{SampleNumbers, Steps};
pub use texts::{LanguageTexts, MOST_TEXT_BYTES};
