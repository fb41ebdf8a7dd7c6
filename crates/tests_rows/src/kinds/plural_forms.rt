//! The header field `Plural-Forms` of gettext's catalogs.

use gettext_plural::PluralForms;
use row_calls::call::Call;

/// Makes the call of a kind of this file. Returns whether there is such a kind.
pub fn make(kind: &str, call: &mut Call) -> bool {
    match kind {
        "plural_forms" => plural_forms(call),
        "plural_forms_error" => plural_forms_error(call),
        "plural_index" => plural_index(call),
        "plural_index_error" => plural_index_error(call),
        "plural_indices" => plural_indices(call),
        _ => return false,
    }
    true
}

// The forms that a text tells of, if it is read.
fn next_forms(call: &mut Call) -> Option<PluralForms> {
    let text = call.text();
    match PluralForms::parse(call.alloc, text.as_bytes()) {
        Ok(forms) => Some(forms),
        Err(fault) => {
            call.print_error(&fault);
            None
        }
    }
}

// How many forms there are.
fn plural_forms(call: &mut Call) {
    if let Some(forms) = next_forms(call) {
        call.print_value(&forms.count());
    }
}

// The text of an error.
fn plural_forms_error(call: &mut Call) {
    let text = call.text();
    match PluralForms::parse(call.alloc, text.as_bytes()) {
        Ok(_) => call.print("none"),
        Err(fault) => call.print_value(&fault),
    }
}

// The index of a number.
fn plural_index(call: &mut Call) {
    let forms = next_forms(call);
    let number = call.number();
    if let Some(forms) = forms {
        print_index(call, &forms, number);
    }
}

// The text of why a number has no index.
fn plural_index_error(call: &mut Call) {
    let forms = next_forms(call);
    let number = call.number();
    if let Some(forms) = forms {
        match forms.index(number) {
            Ok(_) => call.print("none"),
            Err(error) => call.print_value(&error),
        }
    }
}

// The indices of the numbers from 0 on.
fn plural_indices(call: &mut Call) {
    let forms = next_forms(call);
    let count = call.number();
    if let Some(forms) = forms {
        for number in 0..count {
            call.separate(" ");
            print_index(call, &forms, number);
        }
    }
}

// The index of a number, or why it has none.
fn print_index(call: &mut Call, forms: &PluralForms, number: u64) {
    match forms.index(number) {
        Ok(index) => call.print_value(&index),
        Err(error) => call.print_name(&error),
    }
}
