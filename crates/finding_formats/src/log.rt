//! The parts of a log of SARIF, whatever it tells of.

ghost use Rattle.std.specs.Prelude.{◌≡◌, false, IfOk, map, string_bytes};
ghost use Rattle.finding_formats.specs.Logs.{location_data, log_data, log_text, physical_data, result_data, rule_data, run_data, tool_data};
ghost use Rattle.serde_json.specs.View.{items_of, view};
ghost use Rattle.serde_json.specs.Written.{has_float, items_have_float};

use crate::json_lines::push_value;
use crate::reference::file_reference;
use serde_json::{Value, json};
use std::alloc::{AllocError, Global};

/// A way to make a JSON value without floats of a thing.
pub trait ValueMaker<T> {
    ghost use Rattle.std.specs.Prelude.{◌≡◌, false, IfOk};
    ghost use Rattle.serde_json.specs.Data.{Data};
    ghost use Rattle.serde_json.specs.View.{view};
    ghost use Rattle.serde_json.specs.Written.{has_float};

    // What a value is made of, of a thing.
    ghost Seen: { Type 0 };

    ghost seen: { T → Seen };

    // Its value.
    ghost data_of: { Self → Seen → Data };

    /// Returns the value. It allocates; the only error is out of memory.
    fn value(&self, alloc: Global, thing: &T) -> Result<Value, AllocError>
        ensures value { IfOk result (λ value. view value ≡ data_of self.now (seen thing.now)) }
        ensures without { IfOk result (λ value. has_float (view value) ≡ false) };
}

/// Returns the value of each thing. It allocates; the only error is out of memory.
pub fn values_of<T, M: ValueMaker<T>>(
    alloc: Global,
    maker: &M,
    things: &[T],
) -> Result<Vec<Value>, AllocError>
    ensures values { IfOk result (λ values. map view values.items ≡ map (M.data_of maker.now) (map M.seen things.now)) }
    ensures without { IfOk result (λ values. items_have_float (items_of (map view values.items)) ≡ false) }
{
    let mut values = Vec::new(alloc);
    for thing in things {
        values.push(maker.value(alloc, thing)?)?;
    }
    Ok(values)
}

/// Returns the log of a tool with these rules and results. It allocates; the only error is out of
/// memory.
pub fn log_text(
    alloc: Global,
    tool: &str,
    rules: Vec<Value>,
    results: Vec<Value>,
) -> Result<String, AllocError>
    requires rules { items_have_float (items_of (map view rules.items)) ≡ false }
    requires results { items_have_float (items_of (map view results.items)) ≡ false }
    ensures { IfOk result (λ text. string_bytes text ≡ log_text tool.now (map view rules.items) (map view results.items)) }
{
    let log = log_value(alloc, tool, rules, results)?;
    let mut text = String::new(alloc);
    push_value(alloc, &mut text, &log)?;
    Ok(text)
}

// The log as a value.
fn log_value(
    alloc: Global,
    tool: &str,
    rules: Vec<Value>,
    results: Vec<Value>,
) -> Result<Value, AllocError>
    ensures { IfOk result (λ value. view value ≡ log_data tool.now (map view rules.items) (map view results.items)) }
{
    let run = run_value(alloc, tool, rules, results)?;
    json!(in alloc; {
        "$schema": "https://json.schemastore.org/sarif-2.1.0.json",
        "runs": [run],
        "version": "2.1.0"
    })
}

// The run.
fn run_value(
    alloc: Global,
    tool: &str,
    rules: Vec<Value>,
    results: Vec<Value>,
) -> Result<Value, AllocError>
    ensures { IfOk result (λ value. view value ≡ run_data tool.now (map view rules.items) (map view results.items)) }
{
    let tool = tool_value(alloc, tool, rules)?;
    let results = Value::Array(results);
    json!(in alloc; {"results": results, "tool": tool})
}

// The tool.
fn tool_value(alloc: Global, tool: &str, rules: Vec<Value>) -> Result<Value, AllocError>
    ensures { IfOk result (λ value. view value ≡ tool_data tool.now (map view rules.items)) }
{
    let rules = Value::Array(rules);
    json!(in alloc; {"driver": {"name": tool, "rules": rules}})
}

/// Returns the rule of a code, with what it means. It allocates; the only error is out of memory.
pub fn rule_value(alloc: Global, code: &str, meaning: &str) -> Result<Value, AllocError>
    ensures { IfOk result (λ value. view value ≡ rule_data code.now meaning.now) }
{
    json!(in alloc; {"id": code, "shortDescription": {"text": meaning}})
}

/// Returns a result, given its level, its location, what is printed of it, and its rule: a code,
/// and its place in the list of rules. It allocates; the only error is out of memory.
pub fn result_value(
    alloc: Global,
    level: &str,
    location: Value,
    text: &str,
    code: &str,
    place: u8,
) -> Result<Value, AllocError>
    ensures { IfOk result (λ value. view value ≡ result_data level.now (view location) text.now code.now place) }
{
    json!(in alloc; {
        "level": level,
        "locations": [location],
        "message": {"text": text},
        "ruleId": code,
        "ruleIndex": place
    })
}

/// Returns a location: a file, with a line if it is known, and the place in it by its name. It
/// allocates; the only error is out of memory.
pub fn location_value(
    alloc: Global,
    file: &str,
    line: Option<u64>,
    name: &str,
) -> Result<Value, AllocError>
    ensures { IfOk result (λ value. view value ≡ location_data file.now line name.now) }
{
    let physical = physical_value(alloc, file, line)?;
    json!(in alloc; {
        "logicalLocations": [{"fullyQualifiedName": name}],
        "physicalLocation": physical
    })
}

// The location of a file, with a line if it is known.
pub(crate) fn physical_value(
    alloc: Global,
    file: &str,
    line: Option<u64>,
) -> Result<Value, AllocError>
    ensures { IfOk result (λ value. view value ≡ physical_data line file.now) }
{
    let uri = file_reference(alloc, file)?;
    match line {
        Some(line) => {
            json!(in alloc; {"artifactLocation": {"uri": &uri}, "region": {"startLine": line}})
        }
        None => json!(in alloc; {"artifactLocation": {"uri": &uri}}),
    }
}
