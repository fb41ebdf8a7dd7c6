//! The message of i18next's texts that differ in the suffixes of their keys.

use crate::counts::Fate;
use crate::gathered::{Gathered, MessageHead};
use crate::json_file::count_text::{count_text, first_count};
use crate::json_file::empty_form::put_empty;
use crate::json_file::suffix_groups::{Group, GroupForm};
use icu_plurals::PluralCategory;
use message_report::Form;

// Adds the message. A `_zero` is for exactly 0 where the language has no zero of its own. The
// arguments of its source aren't known, but that there are none, if no form has the number.
pub(crate) fn add_suffix_message(
    gathered: &mut Gathered,
    head: MessageHead<'_>,
    group: &Group<'_>,
    has_zero: bool,
) {
    if gathered.is_twice(head) {
        return;
    }
    let has_zero = has_zero || group.name.is_ordinal;
    for form in &group.forms {
        let name = name_of(form.category, has_zero);
        if form.text.is_empty() {
            put_empty(gathered, head, name, form.line);
        } else {
            put_form(gathered, name, form);
        }
    }
    let number = number_in(&group.forms);
    gathered.put_placeholder(number.unwrap_or("{{count}}"));
    gathered.end(head, number.is_none());
    gathered.count(Fate::Checked, 1);
}

// Puts a form under its name.
fn put_form(gathered: &mut Gathered, name: Form, form: &GroupForm<'_>) {
    let text = count_text(gathered.alloc, form.text);
    gathered.put_form(name, text);
    gathered.put_line(name, form.line);
}

// The form of a suffix.
fn name_of(category: PluralCategory, has_zero: bool) -> Form {
    if category == PluralCategory::Zero && !has_zero {
        Form::ExplicitZero
    } else {
        Form::Category(category)
    }
}

// How the first form with the number writes it.
fn number_in<'a>(forms: &[GroupForm<'a>]) -> Option<&'a str> {
    for form in forms {
        let number = first_count(form.text);
        if number.is_some() {
            return number;
        }
    }
    None
}
