//! Packed elements as JSON.

ghost use Rattle.std.specs.Prelude.{◌≡◌, ◌≢◌, ◌↔◌, Err, Ok, IfErr, IfOk, IsFalse, IsTrue, None, OnOk, codes, option_map};
ghost use Rattle.std.specs.Option.{option_and_then};
ghost use Rattle.plural_base.specs.Json.{GivesMeaning};
ghost use Rattle.serde_json.specs.Find.{as_str};
ghost use Rattle.serde_json.specs.View.{view, members_view};
ghost use Rattle.serde_json.specs.Written.{has_float};
ghost use Rattle.icu_plurals.specs.Elements.{each_by};
ghost use Rattle.icu_plurals.specs.ElementsJson.{elements_in_json, elements_json, metadata_in, optional_in, packed_of_json, packs, packed_value_in, value_json, with_value};
ghost use Rattle.icu_plurals.specs.Inner.ElementsViews.{lent_value, metadata_number};
ghost use Rattle.icu_plurals.specs.PackedElements.{PackedElements, elements_of};

use crate::cow::PluralElementsPackedCow;
use crate::elements::PluralElements;
use crate::packed::PluralElementsPackedULE;
use crate::packed::metadata::FourBitMetadata;
use packed_list::laws::read_again;
use plural_base::{ElementsPackError, JsonError, for_five, holds_float};
use serde_json::{Map, Value, json};
use std::alloc::{AllocError, Global};

impl PluralElementsPackedCow<'static> {
    /// Returns the packed elements of a JSON value: an object with a list of metadata, from 0 to
    /// 15, and a text under `other`, and such a list, null or nothing under each of `zero`, `one`,
    /// `two`, `few`, `many`, `explicit_zero` and `explicit_one`. Other keys aren't read. A
    /// category's value that equals that of other isn't packed.
    ///
    /// For example:
    ///
    /// <!-- snippet crates/example_calls/src/calls/packed.rt: "let value" to "let elements" of fn show_json -->
    /// ```
    /// let value = Value::from_str(alloc, r#"{"other":[0,"files"],"one":[0,"file"]}"#)?;
    /// let elements = PluralElementsPackedCow::from_json(alloc, &value)?;
    /// ```
    ///
    /// [`JsonError::Float`] if the value holds a float, else [`JsonError::Shape`] if a part has
    /// another form, else [`JsonError::Pack`] if the elements can't be packed. It allocates for the
    /// bytes; out of memory is [`JsonError::Memory`].
    pub fn from_json(
        alloc: Global,
        value: &Value,
    ) -> Result<PluralElementsPackedCow<'static>, JsonError>
        ensures answers { GivesMeaning (λ packed. packed) result (packed_of_json (view value.now)) }
        // Both are checked before anything is allocated.
        ensures float { (result ≡ Err JsonError.Float) ↔ IsTrue (has_float (view value.now)) }
        ensures shape { (result ≡ Err JsonError.Shape) ↔ (IsFalse (has_float (view value.now)) × (elements_in_json (view value.now) ≡ None)) }
        ensures memory { result ≢ Err (JsonError.Pack ElementsPackError.Memory) }
        // Out of memory isn't told in place of a fault.
        ensures packable { (result ≡ Err JsonError.Memory)
            → (packed : PackedElements) × (packed_of_json (view value.now) ≡ Ok packed) }
    {
        if holds_float(value) {
            return Err(JsonError::Float);
        }
        match read_elements(value) {
            Some(elements) => packed(alloc, &elements),
            None => Err(JsonError::Shape),
        }
    }
}

impl<'data> PluralElementsPackedCow<'data> {
    /// Returns the JSON value of the elements, as [`PluralElementsPackedULE::decode`] returns them:
    /// an object with a list of metadata and text under the key of each value that is present. It
    /// allocates; the only error is [`JsonError::Memory`].
    ///
    /// <!-- snippet crates/example_calls/src/calls/packed.rt: fn show_json; fn print_json -->
    /// ```
    /// fn show_json(rt: &HostRuntime, alloc: Global) -> anyhow::Result<()> {
    ///     let value = Value::from_str(alloc, r#"{"other":[0,"files"],"one":[0,"file"]}"#)?;
    ///     let elements = PluralElementsPackedCow::from_json(alloc, &value)?;
    ///     print_json(rt, alloc, &elements)
    /// }
    ///
    /// fn print_json(
    ///     rt: &HostRuntime,
    ///     alloc: Global,
    ///     elements: &PluralElementsPackedCow<'_>,
    /// ) -> anyhow::Result<()> {
    ///     let written = elements.to_json(alloc)?;
    ///     let again = PluralElementsPackedCow::from_json(alloc, &written)?;
    ///     let size = elements.as_packed().as_bytes().len();
    ///     println!(rt; "{size} bytes, {}", again == *elements)?;
    ///     Ok(())
    /// }
    /// ```
    ///
    /// This prints
    ///
    /// <!-- snippet crates/example_calls/stdout: section elements as JSON -->
    /// ```text
    /// 14 bytes, true
    /// ```
    pub fn to_json(&self, alloc: Global) -> Result<Value, JsonError>
        ensures written { IfOk result (λ value. view value ≡ elements_json (elements_of self.now)) }
        ensures memory { IfErr result (λ error. error ≡ JsonError.Memory) }
    {
        Ok(written(alloc, &self.as_packed().decode())?)
    }
}

// The elements of a value, packed.
fn packed(
    alloc: Global,
    elements: &PluralElements<(FourBitMetadata, &str)>,
) -> Result<PluralElementsPackedCow<'static>, JsonError>
    ensures answers { GivesMeaning (λ packed. packed) result (packs (each_by lent_value elements.now)) }
    ensures float { result ≢ Err JsonError.Float }
    ensures shape { result ≢ Err JsonError.Shape }
    ensures memory { result ≢ Err (JsonError.Pack ElementsPackError.Memory) }
    ensures packable { (result ≡ Err JsonError.Memory)
        → (packed : PackedElements) × (packs (each_by lent_value elements.now) ≡ Ok packed) }
{
    read_again();
    match PluralElementsPackedULE::encode(alloc, elements) {
        Ok(bytes) => Ok(PluralElementsPackedCow::owned(bytes)),
        Err(ElementsPackError::Memory) => Err(JsonError::Memory),
        Err(fault) => Err(JsonError::Pack(fault)),
    }
}

// The elements of a value, if it is of their form.
fn read_elements(value: &Value) -> Option<PluralElements<(FourBitMetadata, &str)>>
    ensures { option_map (each_by lent_value) result ≡ elements_in_json (view value.now) }
{
    Some(PluralElements {
        other: read_value(value.get("other")?)?,
        zero: read_optional(value.get("zero"))?,
        one: read_optional(value.get("one"))?,
        two: read_optional(value.get("two"))?,
        few: read_optional(value.get("few"))?,
        many: read_optional(value.get("many"))?,
        explicit_zero: read_optional(value.get("explicit_zero"))?,
        explicit_one: read_optional(value.get("explicit_one"))?,
    })
}

// A value that may be absent or null.
fn read_optional(value: Option<&Value>) -> Option<Option<(FourBitMetadata, &str)>>
    ensures { option_map (option_map lent_value) result ≡ optional_in (option_map (λ v. view v.now) value.entry) }
{
    let Some(value) = value else {
        return Some(None);
    };
    if value.is_null() {
        return Some(None);
    }
    match read_value(value) {
        Some(pair) => Some(Some(pair)),
        None => None,
    }
}

// A list of metadata and a text.
fn read_value(value: &Value) -> Option<(FourBitMetadata, &str)>
    ensures { option_map lent_value result ≡ packed_value_in (view value.now) }
{
    if value.get(2usize).is_some() {
        return None;
    }
    match (
        read_metadata(value.get(0usize)),
        read_text(value.get(1usize)),
    ) {
        (Some(metadata), Some(text)) => Some((metadata, text)),
        _ => None,
    }
}

// A number from 0 to 15.
fn read_metadata(value: Option<&Value>) -> Option<FourBitMetadata>
    ensures { option_map metadata_number result ≡ option_and_then metadata_in (option_map (λ v. view v.now) value.entry) }
{
    let number = value?.as_u64()?;
    if number > 15 {
        return None;
    }
    FourBitMetadata::try_from_byte(number as u8)
}

// A text.
fn read_text(value: Option<&Value>) -> Option<&str>
    ensures { option_map (λ text. text.now) result ≡ option_and_then as_str (option_map (λ v. view v.now) value.entry) }
{
    value?.as_str()
}

// The value of elements.
fn written(
    alloc: Global,
    elements: &PluralElements<(FourBitMetadata, &str)>,
) -> Result<Value, AllocError>
    ensures { IfOk result (λ value. view value ≡ elements_json (each_by lent_value elements.now)) }
{
    let mut members = Map::new(alloc);
    let other = value_of(alloc, &elements.other)?;
    serde_json::put(&mut members, alloc, "other", other)?;
    put_categories(alloc, &mut members, elements)?;
    put_value(
        alloc,
        &mut members,
        "explicit_zero",
        &elements.explicit_zero,
    )?;
    put_value(alloc, &mut members, "explicit_one", &elements.explicit_one)?;
    Ok(Value::Object(members))
}

// Puts the values of the categories but other under their keys.
fn put_categories(
    alloc: Global,
    members: &mut Map<String, Value>,
    elements: &PluralElements<(FourBitMetadata, &str)>,
) -> Result<(), AllocError>
    ensures { let values = each_by lent_value elements.now in OnOk result (members_view members.new.entries
        ≡ with_value (codes "many") values.many (with_value (codes "few") values.few (with_value (codes "two") values.two
        (with_value (codes "one") values.one (with_value (codes "zero") values.zero (members_view members.old.entries)))))) }
{
    for_five!(elements, |value, category| {
        put_value(alloc, members, category.as_str(), value)?
    });
    Ok(())
}

// Puts a value that is present under its key.
fn put_value(
    alloc: Global,
    members: &mut Map<String, Value>,
    key: &str,
    value: &Option<(FourBitMetadata, &str)>,
) -> Result<(), AllocError>
    ensures { OnOk result (members_view members.new.entries ≡ with_value key.now (option_map lent_value value.now) (members_view members.old.entries)) }
{
    let Some(value) = value else {
        return Ok(());
    };
    let pair = value_of(alloc, value)?;
    serde_json::put(members, alloc, key, pair)
}

// The list of metadata and a text.
fn value_of(alloc: Global, value: &(FourBitMetadata, &str)) -> Result<Value, AllocError>
    ensures { IfOk result (λ pair. view pair ≡ value_json (lent_value value.now)) }
{
    let (metadata, text) = *value;
    json!(in alloc; [metadata.get(), text])
}
