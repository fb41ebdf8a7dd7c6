//! The kinds of rows: one file a subject.

mod asked_categories;
mod catalogs;
mod categories;
mod conditions;
mod decimals;
mod elements;
mod elements_json;
mod five_rules;
mod integer_categories;
mod lists;
mod locales;
mod message_catalogs;
mod messages;
mod operands;
mod packed_catalogs;
mod packed_patterns;
mod packed_rules;
mod packed_texts;
mod packing;
mod pattern_texts;
mod patterns;
mod plural_forms;
mod prepared_categories;
mod range_categories;
mod ranges;
mod relations;
mod rule_truths;
mod rules_bytes;
mod rules_json;
mod runs;
mod samples;
mod styled_patterns;
mod text_arguments;
mod text_categories;
mod tokens;
mod trees;

use row_calls::call::Call;
use row_calls::run::Kinds;

/// The calls of rows.
pub struct Calls;

impl Kinds for Calls {
    fn make(kind: &str, call: &mut Call) -> bool {
        of_texts(kind, call)
            || of_packed(kind, call)
            || of_languages(kind, call)
            || of_documents(kind, call)
            || of_elements(kind, call)
            || of_patterns(kind, call)
    }
}

// Kinds of texts and numbers.
fn of_texts(kind: &str, call: &mut Call) -> bool {
    tokens::make(kind, call)
        || conditions::make(kind, call)
        || samples::make(kind, call)
        || decimals::make(kind, call)
        || operands::make(kind, call)
}

// Kinds of packed lists, catalogues and rules.
fn of_packed(kind: &str, call: &mut Call) -> bool {
    lists::make(kind, call)
        || packed_catalogs::make(kind, call)
        || packed_rules::make(kind, call)
        || relations::make(kind, call)
        || rule_truths::make(kind, call)
}

// Kinds of a language's rules.
fn of_languages(kind: &str, call: &mut Call) -> bool {
    categories::make(kind, call)
        || five_rules::make(kind, call)
        || integer_categories::make(kind, call)
        || prepared_categories::make(kind, call)
        || asked_categories::make(kind, call)
        || text_categories::make(kind, call)
        || rules_bytes::make(kind, call)
}

// Kinds of ranges and documents.
fn of_documents(kind: &str, call: &mut Call) -> bool {
    range_categories::make(kind, call)
        || ranges::make(kind, call)
        || rules_json::make(kind, call)
        || locales::make(kind, call)
}

// Kinds of elements and messages.
fn of_elements(kind: &str, call: &mut Call) -> bool {
    elements::make(kind, call)
        || packing::make(kind, call)
        || packed_texts::make(kind, call)
        || elements_json::make(kind, call)
        || messages::make(kind, call)
}

// Kinds of patterns and of gettext's files.
fn of_patterns(kind: &str, call: &mut Call) -> bool {
    patterns::make(kind, call)
        || styled_patterns::make(kind, call)
        || pattern_texts::make(kind, call)
        || packed_patterns::make(kind, call)
        || message_catalogs::make(kind, call)
        || plural_forms::make(kind, call)
        || catalogs::make(kind, call)
        || text_arguments::make(kind, call)
}
