//! The values under the names of categories.

ghost use Rattle.std.specs.Prelude.{◌≡◌, Some, bytes_eq, option_map};
ghost use Rattle.plural_base.specs.declared.category.raw.RawPluralCategory.{RawPluralCategory as Category};
ghost use Rattle.plural_base.specs.Categories.{raw_name_of};
ghost use Rattle.plural_base.specs.Inner.CategoryValues.{five_lent, five_under, if_named, kept_or, lent_at};
ghost use Rattle.serde_json.specs.View.{view, members_view};

use crate::category::by_category::ByCategory;
use serde_json::{Map, Value};

// What an object with these members has under the names of the categories. They are walked once.
pub(crate) fn values_by_category<'v>(
    members: &'v Map<String, Value>,
) -> ByCategory<Option<&'v Value>>
    ensures { five_lent result ≡ five_under (members_view members.now.entries) }
{
    let mut values = ByCategory::all(None);
    for (name, value) in members.iter() {
        put_named(name.as_str(), value, &mut values);
    }
    values
}

// Puts a value under the name of a category, unless there is one. Frequent names are looked for
// first.
fn put_named<'v>(name: &str, value: &'v Value, values: &mut ByCategory<Option<&'v Value>>)
    ensures { (category : Category) → lent_at values.new category
        ≡ kept_or (lent_at values.old category) (if_named (bytes_eq (raw_name_of category) name.now) (view value.now)) }
{
    match name {
        "other" => put_first(&mut values.other, value),
        "one" => put_first(&mut values.one, value),
        "few" => put_first(&mut values.few, value),
        "many" => put_first(&mut values.many, value),
        "two" => put_first(&mut values.two, value),
        "zero" => put_first(&mut values.zero, value),
        _ => (),
    }
}

// Puts a value where there is none.
fn put_first<'v>(place: &mut Option<&'v Value>, value: &'v Value)
    ensures { option_map (λ v. view v.now) place.new ≡ kept_or (option_map (λ v. view v.now) place.old) (Some (view value.now)) }
{
    if place.is_none() {
        *place = Some(value);
    }
}
