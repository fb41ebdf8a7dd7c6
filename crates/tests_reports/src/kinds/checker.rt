//! Checks of a language's texts against their samples, and notes on their conditions.

use icu_plurals::provider::rules::reference::ast::{DecimalValue, SampleRange};
use icu_plurals::{PluralCategory, PluralElements, PluralRules};
use message_report::category_set;
use plural_checker::{
    CategorySet, Coverage, LanguageTexts, LeastNumbers, RangeFault, Sample, SampleNumbers,
    check_texts, first_samples, least_from, least_of_each, two_least, two_least_of_each,
};
use row_calls::arguments::has_names;
use row_calls::call::Call;
use rule_notes::notes_of;
use std::fmt::Write;

/// Makes the call of a kind of this file. Returns whether there is such a kind.
pub fn make(kind: &str, call: &mut Call) -> bool {
    match kind {
        "sample_numbers" => sample_numbers(call),
        "sample_count" => sample_count(call),
        "report" => report(call),
        "notes" => notes(call),
        "has_rule" => has_rule(call),
        "coverage" => coverage(call),
        "set_of_elements" => set_of_elements(call),
        "set_of_message" => set_of_message(call),
        _ => return of_rules(kind, call),
    }
    true
}

// Makes the call of a kind that is about rules.
fn of_rules(kind: &str, call: &mut Call) -> bool {
    match kind {
        "set_of_rules" => set_of_rules(call),
        "set_without" => set_without(call),
        "least_number" => least_number(call),
        "two_least_numbers" => two_least_numbers(call),
        "least_of_each" => of_each(call, false),
        "two_least_of_each" => of_each(call, true),
        "two_first_samples" => two_first_samples(call),
        _ => return false,
    }
    true
}

// The texts of a language.
#[derive(Drop)]
struct SixTexts {
    zero: Option<String>,
    one: Option<String>,
    two: Option<String>,
    few: Option<String>,
    many: Option<String>,
    other: Option<String>,
}

impl SixTexts {
    // Returns the texts in the next argument.
    fn next(call: &mut Call) -> SixTexts {
        let value = call.value();
        if !has_names(&value, &["zero", "one", "two", "few", "many", "other"]) {
            call.not("texts of a language");
        }
        SixTexts {
            zero: call.optional_text_of(value.get("zero")),
            one: call.optional_text_of(value.get("one")),
            two: call.optional_text_of(value.get("two")),
            few: call.optional_text_of(value.get("few")),
            many: call.optional_text_of(value.get("many")),
            other: call.optional_text_of(value.get("other")),
        }
    }

    // Returns the same texts, borrowed.
    fn borrowed(&self) -> LanguageTexts<'_> {
        LanguageTexts {
            zero: self.zero.as_deref(),
            one: self.one.as_deref(),
            two: self.two.as_deref(),
            few: self.few.as_deref(),
            many: self.many.as_deref(),
            other: self.other.as_deref(),
        }
    }
}

// The sample or the range of samples in the next two arguments.
fn next_range(call: &mut Call) -> SampleRange {
    let lower_val = DecimalValue(call.text());
    let upper_val = match call.optional_text() {
        Some(text) => Some(DecimalValue(text)),
        None => None,
    };
    SampleRange {
        lower_val,
        upper_val,
    }
}

// Prints the fault of a range.
fn print_range_fault(call: &mut Call, fault: RangeFault) {
    let text = call.made(fault.to_string(call.alloc));
    call.print("error ");
    call.print_quoted(text.as_str());
}

// The numbers of a sample or a range of samples, with spaces between them.
fn sample_numbers(call: &mut Call) {
    let range = next_range(call);
    match SampleNumbers::of(call.alloc, &range) {
        Ok(Ok(numbers)) => print_numbers(call, &numbers),
        Ok(Err(fault)) => print_range_fault(call, fault),
        Err(_) => call.out_of_memory(),
    }
}

// Prints the numbers of a sample or a range of samples.
fn print_numbers(call: &mut Call, numbers: &SampleNumbers) {
    for index in 0..numbers.count() {
        call.separate(" ");
        match numbers.text(call.alloc, index) {
            Ok(number) => call.print(number.0.as_str()),
            Err(_) => call.out_of_memory(),
        }
    }
}

// How many numbers a sample or a range of samples has.
fn sample_count(call: &mut Call) {
    let range = next_range(call);
    match SampleNumbers::of(call.alloc, &range) {
        Ok(Ok(numbers)) => call.print_value(&numbers.count()),
        Ok(Err(fault)) => print_range_fault(call, fault),
        Err(_) => call.out_of_memory(),
    }
}

// What is wrong with a language's texts: how many numbers there are, and the faults.
fn report(call: &mut Call) {
    let texts = SixTexts::next(call);
    let Ok(report) = check_texts(call.alloc, &texts.borrowed()) else {
        return call.out_of_memory();
    };
    let _ = write!(call, "{} numbers", report.numbers);
    for fault in report.faults.iter() {
        let _ = write!(call, " | {fault}");
    }
}

// The notes of a language's rules.
fn notes(call: &mut Call) {
    let texts = SixTexts::next(call);
    let Ok(notes) = notes_of(call.alloc, &texts.borrowed()) else {
        return call.out_of_memory();
    };
    if notes.is_empty() {
        call.print("none");
    }
    for note in notes.iter() {
        call.separate(" | ");
        call.print_value(note);
    }
}

// Whether a category has a rule.
fn has_rule(call: &mut Call) {
    let texts = SixTexts::next(call);
    let category = call.category();
    call.print_truth(texts.borrowed().has_rule(category));
}

// The categories that elements for some categories lack, and those that they have in vain.
fn coverage(call: &mut Call) {
    let elements = next_set(call);
    let rules = call.rules();
    print_coverage(call, Coverage::of(elements, &rules));
}

// The set of the categories in the next argument.
fn next_set(call: &mut Call) -> CategorySet {
    let mut set = CategorySet::default();
    for name in &call.texts() {
        include(call, &mut set, name.as_str());
    }
    set
}

// The categories that have a rule.
fn set_of_rules(call: &mut Call) {
    let rules = call.rules();
    print_names(call, CategorySet::of_rules(&rules));
}

// The categories of a set that are not in another.
fn set_without(call: &mut Call) {
    let set = next_set(call);
    let others = next_set(call);
    print_names(call, set.without(others));
}

// The least whole number from a start that has a category.
fn least_number(call: &mut Call) {
    let rules = PluralRules::from_data(call.rules());
    let category = call.category();
    let start = call.number();
    match u16::try_from(start) {
        Ok(start) => print_whole(call, least_from(&rules, category, start)),
        Err(_) => call.not("a number of 16 bits"),
    }
}

// The two least whole numbers that have a category.
fn two_least_numbers(call: &mut Call) {
    let rules = PluralRules::from_data(call.rules());
    let category = call.category();
    let (first, second) = two_least(&rules, category);
    print_whole(call, first);
    call.print(" ");
    print_whole(call, second);
}

// The least whole number of each category from a start, or the two least.
fn of_each(call: &mut Call, are_two: bool) {
    let rules = PluralRules::from_data(call.rules());
    let start = call.number();
    match u16::try_from(start) {
        Ok(start) if are_two => print_each(call, &two_least_of_each(&rules, start), true),
        Ok(start) => print_each(call, &least_of_each(&rules, start), false),
        Err(_) => call.not("a number of 16 bits"),
    }
}

// Prints the numbers of each category, from zero to other.
fn print_each(call: &mut Call, least: &LeastNumbers, are_two: bool) {
    let categories = [
        PluralCategory::Zero,
        PluralCategory::One,
        PluralCategory::Two,
        PluralCategory::Few,
        PluralCategory::Many,
        PluralCategory::Other,
    ];
    let mut mark = "";
    for category in categories {
        let two = least.at(category);
        call.print(mark);
        print_whole(call, two.first);
        if are_two {
            call.print(" ");
            print_whole(call, two.second);
        }
        mark = ", ";
    }
}

// The first two samples of a text that have a category.
fn two_first_samples(call: &mut Call) {
    let rules = PluralRules::from_data(call.rules());
    let category = call.category();
    let text = call.text();
    let (first, second) = first_samples(call.alloc, &rules, category, text.as_str());
    print_sample(call, first);
    call.print(" ");
    print_sample(call, second);
}

// Prints a sample, or `none`.
fn print_sample(call: &mut Call, sample: Option<Sample>) {
    match sample {
        Some(sample) => call.print(sample.as_str()),
        None => call.print("none"),
    }
}

// Prints a whole number, or `none`.
fn print_whole(call: &mut Call, number: Option<u16>) {
    match number {
        Some(number) => call.print_value(&number),
        None => call.print("none"),
    }
}

// The categories whose value is present in elements.
fn set_of_elements(call: &mut Call) {
    let mut elements = PluralElements::new("other");
    for key in &call.texts() {
        elements = with_value(call, elements, key.as_str());
    }
    print_names(call, CategorySet::of_elements(&elements));
}

// The categories that a message has forms for.
fn set_of_message(call: &mut Call) {
    let message = call.value();
    print_names(call, category_set(&message));
}

// Puts a value under a key of elements.
fn with_value<'a>(
    call: &mut Call,
    elements: PluralElements<&'a str>,
    key: &str,
) -> PluralElements<&'a str> {
    let value = Some("value");
    match key {
        "zero" => elements.with_zero_value(value),
        "one" => elements.with_one_value(value),
        "two" => elements.with_two_value(value),
        "few" => elements.with_few_value(value),
        "many" => elements.with_many_value(value),
        "explicit_zero" => elements.with_explicit_zero_value(value),
        "explicit_one" => elements.with_explicit_one_value(value),
        _ => {
            call.not("a key of elements");
            elements
        }
    }
}

// Prints the categories that elements lack, and those that they have in vain.
fn print_coverage(call: &mut Call, coverage: Coverage) {
    call.print("lacking ");
    print_names(call, coverage.lacking);
    call.print("; unused ");
    print_names(call, coverage.unused);
}

// Puts the category of a name into a set.
fn include(call: &mut Call, set: &mut CategorySet, name: &str) {
    match PluralCategory::get_for_cldr_string(name) {
        Some(PluralCategory::Zero) => set.zero = true,
        Some(PluralCategory::One) => set.one = true,
        Some(PluralCategory::Two) => set.two = true,
        Some(PluralCategory::Few) => set.few = true,
        Some(PluralCategory::Many) => set.many = true,
        _ => call.not("a category of a set"),
    }
}

// Prints the names of the categories in a set, or none.
fn print_names(call: &mut Call, set: CategorySet) {
    let members = [
        ("zero", set.zero),
        ("one", set.one),
        ("two", set.two),
        ("few", set.few),
        ("many", set.many),
    ];
    let mut mark = "";
    for (name, is_in) in members {
        if is_in {
            call.print(mark);
            call.print(name);
            mark = ", ";
        }
    }
    if mark.is_empty() {
        call.print("none");
    }
}
