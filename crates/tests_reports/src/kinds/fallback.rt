//! The chains of locales, and what is found along them.

use plural_base::PluralRuleType;
use plural_fallback::{
    FallbackProvider, MOST_LOCALES, Part, find_first, is_known, is_unknown, next_locale,
};
use row_calls::call::Call;
use serde_json::Value;

/// Makes the call of a kind of this file. Returns whether there is such a kind.
pub fn make(kind: &str, call: &mut Call) -> bool {
    match kind {
        "fallback_chain" => fallback_chain(call),
        "fallback_key" => fallback_key(call),
        "fallback_rules" => fallback_rules(call),
        "fallback_ranges" => fallback_ranges(call),
        "fallback_unknown" => fallback_unknown(call),
        "fallback_known" => fallback_known(call),
        _ => return false,
    }
    true
}

// The chain of a locale by the parents of a document.
fn fallback_chain(call: &mut Call) {
    let document = call.value();
    let locale = call.text();
    print_chain(call, &document, locale.as_bytes());
}

// Prints the first locales of a chain, as many as are looked up.
fn print_chain(call: &mut Call, document: &Value, locale: &[u8]) {
    let mut next = Some(locale);
    for _ in 0..MOST_LOCALES {
        let Some(locale) = next else {
            return;
        };
        call.separate(" ");
        print_locale(call, locale);
        next = next_locale(document, locale);
    }
}

// Prints a locale.
fn print_locale(call: &mut Call, locale: &[u8]) {
    match std::str::from_utf8(locale) {
        Ok(text) => call.print(text),
        Err(_) => call.not("a text"),
    }
}

// The key of a locale in a part of a document.
fn fallback_key(call: &mut Call) {
    let document = call.value();
    let part = next_part(call);
    let locale = call.text();
    match find_first(&document, part, locale.as_str()) {
        Ok(key) => call.print(key),
        Err(error) => call.print_error(&error),
    }
}

// The part that a text names.
fn next_part(call: &mut Call) -> Part {
    let name = call.text();
    match name.as_str() {
        "cardinal" => Part::Cardinal,
        "ordinal" => Part::Ordinal,
        "ranges" => Part::Ranges,
        _ => {
            call.not("a part");
            Part::Cardinal
        }
    }
}

// The key and the rules of a locale, where the keys and parents are those of one document, and the
// rules those of another.
fn fallback_rules(call: &mut Call) {
    let locales = call.value();
    let Some(provider) = call.provider() else {
        return;
    };
    let locale = call.text();
    let fallback = FallbackProvider {
        provider: &provider,
        locales: &locales,
    };
    let loaded = match call.rule_type() {
        Some(PluralRuleType::Ordinal) => fallback.load_ordinal(locale.as_str()),
        _ => fallback.load_cardinal(locale.as_str()),
    };
    match loaded {
        Ok(loaded) => {
            call.print(loaded.key);
            call.separate(" ");
            call.print_rules(&loaded.value);
        }
        Err(error) => call.print_error(&error),
    }
}

// The key and the ranges of a locale, in the same way.
fn fallback_ranges(call: &mut Call) {
    let locales = call.value();
    let Some(provider) = call.provider() else {
        return;
    };
    let locale = call.text();
    let fallback = FallbackProvider {
        provider: &provider,
        locales: &locales,
    };
    match fallback.load_ranges(locale.as_str()) {
        Ok(loaded) => {
            call.print(loaded.key);
            call.separate(" ");
            match loaded.value.to_json(call.alloc) {
                Ok(value) => call.print_json(&value),
                Err(error) => call.print_error(&error),
            }
        }
        Err(error) => call.print_error(&error),
    }
}

// Whether the language of a locale is unknown, by the first key of its chain.
fn fallback_unknown(call: &mut Call) {
    let locale = call.text();
    let key = call.text();
    if is_unknown(locale.as_str(), key.as_str()) {
        call.print("unknown");
    } else {
        call.print("known");
    }
}

// Whether the language of a locale is known by a document.
fn fallback_known(call: &mut Call) {
    let document = call.value();
    let locale = call.text();
    if is_known(&document, locale.as_str()) {
        call.print("known");
    } else {
        call.print("unknown");
    }
}
