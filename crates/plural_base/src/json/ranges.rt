//! Ranges and their categories as JSON.

ghost use Rattle.std.specs.Prelude.{◌≡◌, ◌≢◌, ◌↔◌, ◌⊎◌, Err, IfOk, IfErr, OnOk, string_bytes};
ghost use Rattle.plural_base.specs.declared.category.raw.RawPluralCategory.{RawPluralCategory as Category};
ghost use Rattle.plural_base.specs.Ranges.{range_byte, range_text, no_ranges};
ghost use Rattle.plural_base.specs.Inner.JsonSteps as steps;
ghost use Rattle.plural_base.specs.RangesJson.{category_meant, key_of_json, key_json, key_meant, members_meant, object_under, ranges_of_json, ranges_meant, IsJsonOfRanges};
ghost use Rattle.serde_json.specs.View.{view, members_view};

use crate::category::raw::{ALL, RawPluralCategory};
use crate::json::error::JsonError;
use crate::json::float::holds_float;
use crate::json::known_rules::KnownRules;
use crate::json::rows::FromJson;
use crate::json::rules::put_value;
use crate::ranges::PluralRanges;
use crate::ranges::key::{UnvalidatedPluralRange, category_of_name, range_of_text};
use serde_json::{Map, Value, json};
use std::alloc::{AllocError, Global};

impl UnvalidatedPluralRange {
    /// Returns the JSON value of the range, its text. It allocates.
    ///
    /// [`JsonError::RangeKey`] if and only if the byte names no range; out of memory is
    /// [`JsonError::Memory`].
    pub fn to_json(self, alloc: Global) -> Result<Value, JsonError>
        ensures written { IfOk result (λ value. (start : Category) × (end : Category) × (self.0 ≡ range_byte start end) × (view value ≡ key_json start end)) }
        ensures key { (result ≡ Err JsonError.RangeKey) ↔ ((start : Category) (end : Category) → self.0 ≢ range_byte start end) }
        ensures refusals { IfErr result (λ error. (error ≡ JsonError.RangeKey) ⊎ (error ≡ JsonError.Memory)) }
    {
        let Some((start, end)) = self.range() else {
            return Err(JsonError::RangeKey);
        };
        Ok(Value::String(text_of(alloc, start, end)?))
    }

    /// Returns the range of a JSON value, which is its text. It allocates nothing.
    ///
    /// [`JsonError::Float`] if the value holds a float, else [`JsonError::Shape`] if it isn't a
    /// text, else [`JsonError::RangeKey`] if the text names no range.
    pub fn from_json(value: &Value) -> Result<UnvalidatedPluralRange, JsonError>
        ensures answers { result ≡ key_of_json (view value.now) }
        ensures no_memory { result ≢ Err JsonError.Memory }
    {
        if holds_float(value) {
            return Err(JsonError::Float);
        }
        read_key(value)
    }
}

impl PluralRanges {
    /// Returns the JSON value of the ranges: an object with `ranges` alone, an object from the text
    /// of each range that has a category to the category's name. It allocates; the only error is
    /// [`JsonError::Memory`].
    ///
    /// <!-- snippet crates/example_calls/src/calls/ranges.rt:
    ///      "let mut ranges" to "let value" of fn print_json -->
    /// ```
    /// let mut ranges = PluralRanges::new();
    /// ranges.insert(one, few, few);
    /// let value = ranges.to_json(alloc)?;
    /// ```
    pub fn to_json(&self, alloc: Global) -> Result<Value, JsonError>
        ensures written { IfOk result (λ value. IsJsonOfRanges (view value) self.now) }
        ensures memory { IfErr result (λ error. error ≡ JsonError.Memory) }
    {
        let members = write_members(alloc, self)?;
        Ok(under_ranges(alloc, Value::Object(members))?)
    }

    /// Returns the ranges of a JSON value: an object with an object under `ranges`, from texts of
    /// ranges to names of categories. Other keys aren't read. It allocates nothing.
    ///
    /// [`JsonError::Float`] if the value holds a float, else [`JsonError::Shape`] if it or what is
    /// under `ranges` isn't an object; else the refusal of the first member, in the order of the
    /// keys' bytes, key before value: [`JsonError::RangeKey`] if the key names no range,
    /// [`JsonError::Shape`] if the value isn't a text, [`JsonError::RangeValue`] if it isn't a
    /// category's name.
    ///
    /// For example:
    ///
    /// <!-- snippet crates/example_calls/src/calls/ranges.rt: body of fn print_json -->
    /// ```
    /// let (one, few) = (RawPluralCategory::One, RawPluralCategory::Few);
    /// let mut ranges = PluralRanges::new();
    /// ranges.insert(one, few, few);
    /// let value = ranges.to_json(alloc)?;
    /// println!(rt; "{}", value.to_string(alloc)?)?;
    /// println!(rt; "{}", PluralRanges::from_json(&value) == Ok(ranges))?;
    /// ```
    ///
    /// This prints
    ///
    /// <!-- snippet crates/example_calls/stdout: section ranges as JSON -->
    /// ```text
    /// {"ranges":{"one--few":"few"}}
    /// true
    /// ```
    pub fn from_json(value: &Value) -> Result<PluralRanges, JsonError>
        ensures answers { result ≡ ranges_of_json (view value.now) }
        ensures no_memory { result ≢ Err JsonError.Memory }
    {
        if holds_float(value) {
            return Err(JsonError::Float);
        }
        read_ranges(value)
    }
}

// The range of a value without floats.
fn read_key(value: &Value) -> Result<UnvalidatedPluralRange, JsonError>
    ensures { result ≡ key_meant (view value.now) }
{
    let Some(text) = value.as_str() else {
        return Err(JsonError::Shape);
    };
    match range_of_text(text) {
        Some((start, end)) => Ok(UnvalidatedPluralRange::from_range(start, end)),
        None => Err(JsonError::RangeKey),
    }
}

// What a locale has under `ranges`.
impl FromJson for PluralRanges {
    ghost use Rattle.plural_base.specs.declared.ranges.PluralRanges.{PluralRanges as Ranges};

    ghost Seen = { Ranges };

    ghost seen = { λ ranges. ranges };

    ghost meant = { ranges_meant };

    fn read<'v>(
        _alloc: Global,
        value: &'v Value,
        _known: &mut KnownRules<'v>,
    ) -> Result<PluralRanges, JsonError> {
        read_ranges(value)
    }

    fn check<'v>(
        _alloc: Global,
        value: &'v Value,
        _known: &mut KnownRules<'v>,
    ) -> Result<(), JsonError> {
        let _ = read_ranges(value)?;
        Ok(())
    }
}

// The ranges of a value without floats.
fn read_ranges(value: &Value) -> Result<PluralRanges, JsonError>
    ensures { result ≡ ranges_meant (view value.now) }
{
    let Some(under) = value.get("ranges") else {
        return Err(JsonError::Shape);
    };
    match under.as_object() {
        Some(members) => read_members(members),
        None => Err(JsonError::Shape),
    }
}

// The category of each member for its range.
fn read_members(members: &Map<String, Value>) -> Result<PluralRanges, JsonError>
    ensures { result ≡ members_meant no_ranges (members_view members.now.entries) }
{
    let mut ranges = PluralRanges::new();
    for (key, value) in members.iter() {
        let Some((start, end)) = range_of_text(key.as_str()) else {
            return Err(JsonError::RangeKey);
        };
        ranges.insert(start, end, read_category(value)?);
    }
    Ok(ranges)
}

// The category of a name.
fn read_category(value: &Value) -> Result<RawPluralCategory, JsonError>
    ensures { result ≡ category_meant (view value.now) }
{
    let Some(text) = value.as_str() else {
        return Err(JsonError::Shape);
    };
    match category_of_name(text) {
        Some(category) => Ok(category),
        None => Err(JsonError::RangeValue),
    }
}

// The object with this value under `ranges`.
fn under_ranges(alloc: Global, table: Value) -> Result<Value, AllocError>
    ensures { IfOk result (λ value. view value ≡ object_under (view table)) }
{
    json!(in alloc; {"ranges": table})
}

// The ranges that have a category.
fn write_members(alloc: Global, ranges: &PluralRanges) -> Result<Map<String, Value>, AllocError>
    ensures { IfOk result (λ members. members_view members.entries ≡ steps.range_members ranges.now) }
{
    let mut members = Map::new(alloc);
    for start in &ALL {
        write_row(alloc, ranges, *start, &mut members)?;
    }
    Ok(members)
}

// Puts the ranges with a start that have a category.
fn write_row(
    alloc: Global,
    ranges: &PluralRanges,
    start: RawPluralCategory,
    members: &mut Map<String, Value>,
) -> Result<(), AllocError>
    ensures { OnOk result (members_view members.new.entries ≡ steps.put_row ranges.now (members_view members.old.entries) start) }
{
    for end in &ALL {
        write_range(alloc, start, *end, ranges.get(start, *end), members)?;
    }
    Ok(())
}

// Puts a range, if it has a category.
fn write_range(
    alloc: Global,
    start: RawPluralCategory,
    end: RawPluralCategory,
    category: Option<RawPluralCategory>,
    members: &mut Map<String, Value>,
) -> Result<(), AllocError>
    ensures { OnOk result (members_view members.new.entries ≡ steps.put_range start end (members_view members.old.entries) category) }
{
    let Some(category) = category else {
        return Ok(());
    };
    let text = text_of(alloc, start, end)?;
    let name = String::from_str(alloc, category.as_str())?;
    put_value(text, Value::String(name), members)?;
    Ok(())
}

// The text of a range.
fn text_of(
    alloc: Global,
    start: RawPluralCategory,
    end: RawPluralCategory,
) -> Result<String, AllocError>
    ensures { IfOk result (λ text. string_bytes text ≡ range_text start end) }
{
    format!(in alloc; "{}--{}", start.as_str(), end.as_str())
}
