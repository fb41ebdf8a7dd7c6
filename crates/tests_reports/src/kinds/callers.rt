//! The callers of the crate `example_callers`.

use example_callers::{
    CompactUnits, Formatter, NoticeError, RangeLabels, RelativeTime, ShownNumber, Store,
    is_complete, notice,
};
use icu_plurals::{CompactDecimal, JsonProvider, PluralRulesWithRanges};
use message_format::{FormatError, Rules};
use plural_fallback::FallbackProvider;
use plural_message::Message;
use row_calls::call::Call;
use row_calls::elements::Elements;

/// Makes the call of a kind of this file. Returns whether there is such a kind.
pub fn make(kind: &str, call: &mut Call) -> bool {
    match kind {
        "formatter" => formatter(call),
        "relative_time" => relative_time(call),
        "compact_units" => compact_units(call),
        "store" => store(call),
        "range_label" => range_label(call),
        "translation" => translation(call),
        "notice" => notice_of(call),
        _ => return false,
    }
    true
}

// The message of a formatter.
fn formatter(call: &mut Call) {
    if let Some(texts) = call.packed() {
        let rules = call.plural_rules();
        print_formatted(call, &Formatter { texts, rules });
    }
}

// Prints the message of a formatter for the number in the next argument.
fn print_formatted(call: &mut Call, formatter: &Formatter) {
    let number = call.text();
    let message = formatter.format(call.alloc, number.as_str());
    call.print_said(message);
}

// The text of an amount of time.
fn relative_time(call: &mut Call) {
    let (Some(future), Some(past)) = (call.packed(), call.packed()) else {
        return;
    };
    let time = RelativeTime {
        future: Message::new(future.as_packed()),
        past: Message::new(past.as_packed()),
    };
    print_time(call, &time);
}

// Prints the text of an amount of time, by the rules and for the amount in the next arguments.
fn print_time(call: &mut Call, time: &RelativeTime<'_>) {
    let rules = call.plural_rules();
    let amount = call.text();
    let message = time.format(call.alloc, amount.as_str(), &rules);
    call.print_said(message);
}

// The text of a number with its unit.
fn compact_units(call: &mut Call) {
    let (Some(thousand), Some(million)) = (call.packed(), call.packed()) else {
        return;
    };
    let Some(plain) = call.packed() else {
        return;
    };
    let units = CompactUnits {
        thousand: Message::new(thousand.as_packed()),
        million: Message::new(million.as_packed()),
        plain: Message::new(plain.as_packed()),
    };
    print_units(call, &units);
}

// Prints the text of a number with its unit, by the rules and for the number in the next arguments.
fn print_units(call: &mut Call, units: &CompactUnits<'_>) {
    let rules = call.plural_rules();
    let number = call.text();
    let message = units.format(call.alloc, number.as_str(), &rules);
    call.print_said(message);
}

// The text that a store has for a number.
fn store(call: &mut Call) {
    let one = call.bytes();
    let texts = call.bytes();
    let Some(number) = call.compact() else {
        return;
    };
    match Store::from_bytes(one.as_slice(), texts.as_slice()) {
        Some(store) => call.print_quoted(store.get(&number)),
        None => call.print("none"),
    }
}

// The label of a range.
fn range_label(call: &mut Call) {
    let Some(provider) = call.provider() else {
        return;
    };
    let locale = call.text();
    let nouns = Elements::next_texts(call);
    match PluralRulesWithRanges::try_new_cardinal_unstable(&provider, locale.as_str()) {
        Ok(rules) => {
            let nouns = nouns.texts();
            print_label(call, &RangeLabels { rules, nouns });
        }
        Err(_) => call.not("a locale"),
    }
}

// Prints the label of a range between the next two arguments.
fn print_label(call: &mut Call, labels: &RangeLabels<'_>) {
    let start = call.text();
    let end = call.text();
    let (Some(first), Some(last)) = (number_of(call, &start), number_of(call, &end)) else {
        return;
    };
    let start = ShownNumber {
        number: &first,
        text: start.as_str(),
    };
    let end = ShownNumber {
        number: &last,
        text: end.as_str(),
    };
    let label = call.made(labels.label(call.alloc, start, end));
    call.print_quoted(label.as_str());
}

// The number that a text writes.
fn number_of(call: &mut Call, text: &str) -> Option<CompactDecimal> {
    match CompactDecimal::from_str(call.alloc, text) {
        Ok(number) => Some(number),
        Err(error) => {
            call.refused("a number", &error);
            None
        }
    }
}

// Whether a document of messages has no fault.
fn translation(call: &mut Call) {
    let (rules, messages) = (call.value(), call.value());
    let provider = match JsonProvider::from_value(call.alloc, &rules) {
        Ok(provider) => provider,
        Err(error) => return call.refused("rules", &error),
    };
    let source = FallbackProvider {
        provider: &provider,
        locales: &rules,
    };
    match is_complete(call.alloc, &source, &messages) {
        Ok(complete) => call.print_truth(complete),
        Err(error) => call.print_error(&error),
    }
}

// What a pattern says of a count.
fn notice_of(call: &mut Call) {
    let pattern = call.text();
    let count = call.text();
    let cardinal = call.plural_rules();
    let ordinal = call.plural_rules();
    let rules = Rules {
        cardinal: &cardinal,
        ordinal: &ordinal,
    };
    match notice(call.alloc, pattern.as_str(), count.as_str(), &rules) {
        Ok(said) => call.print_quoted(std::str::from_utf8(&said).unwrap_or("?")),
        Err(NoticeError::Pattern(error)) => call.print_error(&error),
        Err(NoticeError::Format(FormatError::Argument(fault, _))) => call.print_error(&fault),
        Err(NoticeError::Format(FormatError::Memory)) => call.out_of_memory(),
    }
}
