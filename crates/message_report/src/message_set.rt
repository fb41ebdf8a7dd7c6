//! The set of the categories that a message has forms for.

ghost use Rattle.std.specs.Prelude.{◌≡◌};
ghost use Rattle.message_report.specs.MessageForms.{categories_in, has_category};
ghost use Rattle.serde_json.specs.View.{view};

use crate::form::Form;
use icu_plurals::PluralCategory;
use plural_base::make_five;
use plural_checker::CategorySet;
use serde_json::Value;

/// Returns the categories that a message, which is an object of forms by name, has a form for,
/// whatever stands under its name. The forms of exactly 0 and 1 belong to no category; a value that
/// is no object has no form. It allocates nothing.
///
/// [`Coverage::of`](plural_checker::Coverage::of) compares the set with the rules of a language.
pub fn category_set(message: &Value) -> CategorySet
    ensures { result ≡ categories_in (view message.now) }
{
    make_five!(CategorySet, |category| has_form(message, category))
}

// Whether a message has the form of a category.
fn has_form(message: &Value, category: PluralCategory) -> bool
    ensures { result ≡ has_category (view message.now) category }
{
    Form::Category(category).is_in(message)
}
