//! What the library for C exports: results that are numbers.

use row_calls::call::Call;
use serde_json::Value;

/// Makes the call of a kind of this file. Returns whether there is such a kind.
pub fn make(kind: &str, call: &mut Call) -> bool {
    match kind {
        "exported_block" => block(call),
        "exported_integers" => integers(call),
        "exported_signed_integers" => signed_integers(call),
        "exported_operands" => operands(call),
        "exported_number" => number(call),
        "exported_by_table" => by_table(call),
        "exported_text_by_table" => text_by_table(call),
        "exported_whole" => whole(call),
        "exported_check" => check(call),
        "exported_catalog" => catalog(call),
        _ => return false,
    }
    true
}

/// Returns the bytes of the next argument: those of a text, or `{"hex": DIGITS}`.
pub fn next_given(call: &mut Call) -> Vec<u8> {
    let value = call.value();
    given_of(call, &value)
}

/// Returns the bytes of a value: those of a text, or `{"hex": DIGITS}`.
pub fn given_of(call: &mut Call, value: &Value) -> Vec<u8> {
    if let Some(digits) = value.get("hex") {
        return call.bytes_of(digits);
    }
    let text = call.text_of(value);
    copied(call, text.as_str())
}

/// Prints the result of an export, or keeps the fault that memory ran out, which is -1.
pub fn print_told(call: &mut Call, told: i64) {
    if told == -1 {
        call.out_of_memory();
    } else {
        call.print_value(&told);
    }
}

// The bytes of a text.
fn copied(call: &mut Call, text: &str) -> Vec<u8> {
    match Vec::from_slice(call.alloc, text.as_bytes()) {
        Ok(bytes) => bytes,
        Err(_) => {
            call.out_of_memory();
            Vec::new(call.alloc)
        }
    }
}

// Whether bytes are a block of rules, and the bits of its categories.
fn block(call: &mut Call) {
    let rules = call.bytes();
    call.print_value(&plural_exports::check_rules(&rules));
    call.print(" ");
    call.print_value(&plural_exports::categories(&rules));
}

// The category of each integer.
fn integers(call: &mut Call) {
    let rules = call.bytes();
    for value in &call.list() {
        let number = call.number_of(value);
        call.separate(" ");
        call.print_value(&plural_exports::category_of_integer(&rules, number));
    }
}

// The category of each integer with a sign.
fn signed_integers(call: &mut Call) {
    let rules = call.bytes();
    for value in &call.list() {
        let Some(number) = value.as_i64() else {
            return call.not("integers with a sign");
        };
        call.separate(" ");
        call.print_value(&plural_exports::category_of_signed_integer(&rules, number));
    }
}

// The category of six operands.
fn operands(call: &mut Call) {
    let rules = call.bytes();
    let (i, v, w) = (call.number(), call.size(), call.size());
    let (f, t, c) = (call.number(), call.number(), call.size());
    call.print_value(&plural_exports::category_of_operands(&rules, i, v, w, f, t, c));
}

// The category of a number's text, whether it is exact, and the sure one.
fn number(call: &mut Call) {
    let rules = call.bytes();
    let number = next_given(call);
    let category = plural_exports::category(call.alloc, &rules, &number);
    print_told(call, i64::from(category));
    call.print(" ");
    let is_exact = plural_exports::is_exact(call.alloc, &rules, &number);
    print_told(call, i64::from(is_exact));
    call.print(" ");
    let sure = plural_exports::sure_category(call.alloc, &rules, &number);
    print_told(call, i64::from(sure));
}

// What a table tells of each integer.
fn by_table(call: &mut Call) {
    let table = call.bytes();
    for value in &call.list() {
        let number = call.number_of(value);
        call.separate(" ");
        call.print_value(&plural_exports::category_by_table(&table, number));
    }
}

// What a table tells of each text.
fn text_by_table(call: &mut Call) {
    let table = call.bytes();
    for value in &call.list() {
        let text = given_of(call, value);
        call.separate(" ");
        call.print_value(&plural_exports::text_category_by_table(&table, &text));
    }
}

// Whether a text is a rule as a whole.
fn whole(call: &mut Call) {
    let text = next_given(call);
    let is_whole = plural_exports::is_read_whole(call.alloc, &text);
    print_told(call, i64::from(is_whole));
}

// Whether bytes are the block of a pattern.
fn check(call: &mut Call) {
    let block = call.bytes();
    call.print_value(&plural_exports::pattern_check(&block));
}

// Whether bytes are a catalogue of messages.
fn catalog(call: &mut Call) {
    let catalog = call.bytes();
    call.print_value(&plural_exports::catalog_check(&catalog));
}
