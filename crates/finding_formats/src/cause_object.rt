//! Causes as JSON objects.

ghost use Rattle.std.specs.Prelude.{◌≡◌, codes, IfOk, OnOk};
ghost use Rattle.finding_formats.specs.FindingObjects.{cause_data, fault_kind_name, known_numbers, known_samples, with_branch_fault, with_cause};
ghost use Rattle.finding_formats.specs.FindingObjects.{with_form_fault, with_number_under, with_numbers, with_category_samples, with_text_under};
ghost use Rattle.icu_plurals.specs.Categories.{name_of};
ghost use Rattle.serde_json.specs.Data.{array};
ghost use Rattle.serde_json.specs.View.{members_view, view};

use crate::code::Code;
use crate::members::{put_number, put_text};
use crate::place_object::type_name;
use icu_plurals::PluralCategory;
use message_pattern::FaultKind;
use message_report::{BranchFault, Cause, Form, FormFault};
use plural_checker::Sample;
use serde_json::{Map, Value, json, put};
use std::alloc::{AllocError, Global};

// The object of a cause.
pub(crate) fn cause_value(alloc: Global, cause: Cause) -> Result<Value, AllocError>
    ensures { IfOk result (λ value. view value ≡ cause_data cause) }
{
    let mut members = Map::new(alloc);
    put_cause(alloc, &mut members, cause)?;
    put_text(alloc, &mut members, "code", Code::of(cause).as_str())?;
    Ok(Value::Object(members))
}

// Puts what a cause has: of what it is, and its values.
fn put_cause(
    alloc: Global,
    members: &mut Map<String, Value>,
    cause: Cause,
) -> Result<(), AllocError>
    ensures { OnOk result (members_view members.new.entries ≡ with_cause cause (members_view members.old.entries)) }
{
    match cause {
        Cause::NoObject => Ok(()),
        Cause::NotAPart => Ok(()),
        Cause::NoTextList => Ok(()),
        Cause::NoRules(rule_type) => put_text(alloc, members, "type", type_name(rule_type)),
        Cause::Form(fault) => put_form_fault(alloc, members, fault),
        Cause::NotAForm => Ok(()),
        Cause::NoText => put_text(alloc, members, "of", "pattern"),
        Cause::NoPattern(kind, byte) => put_pattern_fault(alloc, members, kind, byte),
        Cause::Branch(fault) => put_branch_fault(alloc, members, fault),
        Cause::More(count) => put_number(alloc, members, "count", count),
    }
}

// Puts the first fault of a text that is no pattern.
fn put_pattern_fault(
    alloc: Global,
    members: &mut Map<String, Value>,
    kind: FaultKind,
    byte: usize,
) -> Result<(), AllocError>
    ensures { OnOk result (members_view members.new.entries
        ≡ with_number_under (codes "byte") byte (with_text_under (codes "fault") (fault_kind_name kind) (members_view members.old.entries))) }
{
    put_text(alloc, members, "fault", fault_kind_name(kind))?;
    put_number(alloc, members, "byte", byte as u64)
}

// The word of a kind of fault.
fn fault_kind_name(kind: FaultKind) -> &'static str
    ensures { result.now ≡ fault_kind_name kind }
{
    match kind {
        FaultKind::Unclosed => "unclosed",
        FaultKind::ExpectedName => "expected-name",
        FaultKind::BadNumber => "bad-number",
        FaultKind::ExpectedEnd => "expected-end",
        FaultKind::ExpectedType => "expected-type",
        FaultKind::UnsupportedType => "unsupported-type",
        FaultKind::ExpectedStyle => "expected-style",
        FaultKind::ExpectedOffset => "expected-offset",
        FaultKind::ExpectedSelector => "expected-selector",
        FaultKind::ExpectedValue => "expected-value",
        FaultKind::ExpectedBranch => "expected-branch",
        FaultKind::MissingOther => "missing-other",
        FaultKind::TooDeep => "too-deep",
    }
}

// Puts the fault of a form.
fn put_form_fault(
    alloc: Global,
    members: &mut Map<String, Value>,
    fault: FormFault,
) -> Result<(), AllocError>
    ensures { OnOk result (members_view members.new.entries
        ≡ with_form_fault fault (with_text_under (codes "of") (codes "form") (members_view members.old.entries))) }
{
    put_text(alloc, members, "of", "form")?;
    match fault {
        FormFault::NoText => Ok(()),
        FormFault::Unused(category) => put_category(alloc, members, category),
        FormFault::NoNumber(category, first, second) => {
            put_numbers(alloc, members, category, Some(first), Some(second))
        }
        FormFault::Missing(category, first, second) => {
            put_numbers(alloc, members, category, Some(first), second)
        }
        FormFault::MissingRare(category, first, second) => {
            put_samples(alloc, members, category, first, second)
        }
    }
}

// Puts the fault of a branch.
fn put_branch_fault(
    alloc: Global,
    members: &mut Map<String, Value>,
    fault: BranchFault,
) -> Result<(), AllocError>
    ensures { OnOk result (members_view members.new.entries
        ≡ with_branch_fault fault (with_text_under (codes "of") (codes "branch") (members_view members.old.entries))) }
{
    put_text(alloc, members, "of", "branch")?;
    match fault {
        BranchFault::NoCategory => Ok(()),
        BranchFault::Twice => Ok(()),
        BranchFault::Unused(category) => put_category(alloc, members, category),
        BranchFault::NoHash(category, first, second) => {
            put_numbers(alloc, members, category, Some(first), Some(second))
        }
        BranchFault::Missing(category, first, second) => {
            put_numbers(alloc, members, category, Some(first), second)
        }
        BranchFault::MissingRare(category, first, second) => {
            put_samples(alloc, members, category, first, second)
        }
    }
}

// Puts a category.
fn put_category(
    alloc: Global,
    members: &mut Map<String, Value>,
    category: PluralCategory,
) -> Result<(), AllocError>
    ensures { OnOk result (members_view members.new.entries ≡ with_text_under (codes "category") (name_of category) (members_view members.old.entries)) }
{
    put_text(
        alloc,
        members,
        "category",
        Form::Category(category).as_str(),
    )
}

// Puts a category, and numbers of it.
fn put_numbers(
    alloc: Global,
    members: &mut Map<String, Value>,
    category: PluralCategory,
    first: Option<u16>,
    second: Option<u16>,
) -> Result<(), AllocError>
    ensures { OnOk result (members_view members.new.entries ≡ with_numbers category first second (members_view members.old.entries)) }
{
    put_category(alloc, members, category)?;
    let numbers = numbers_value(alloc, first, second)?;
    put(members, alloc, "numbers", numbers)
}

// Puts a category, and samples of it.
fn put_samples(
    alloc: Global,
    members: &mut Map<String, Value>,
    category: PluralCategory,
    first: Option<Sample>,
    second: Option<Sample>,
) -> Result<(), AllocError>
    ensures { OnOk result (members_view members.new.entries ≡ with_category_samples category first second (members_view members.old.entries)) }
{
    put_category(alloc, members, category)?;
    let samples = samples_value(alloc, first, second)?;
    put(members, alloc, "samples", samples)
}

// The list of the samples that are known.
fn samples_value(
    alloc: Global,
    first: Option<Sample>,
    second: Option<Sample>,
) -> Result<Value, AllocError>
    ensures { IfOk result (λ value. view value ≡ array (known_samples first second)) }
{
    match first {
        Some(first) => match second {
            Some(second) => json!(in alloc; [first.as_str(), second.as_str()]),
            None => json!(in alloc; [first.as_str()]),
        },
        None => match second {
            Some(second) => json!(in alloc; [null, second.as_str()]),
            None => json!(in alloc; []),
        },
    }
}

// The list of the numbers that are known.
fn numbers_value(
    alloc: Global,
    first: Option<u16>,
    second: Option<u16>,
) -> Result<Value, AllocError>
    ensures { IfOk result (λ value. view value ≡ array (known_numbers first second)) }
{
    match first {
        Some(first) => match second {
            Some(second) => json!(in alloc; [first, second]),
            None => json!(in alloc; [first]),
        },
        None => match second {
            Some(second) => json!(in alloc; [null, second]),
            None => json!(in alloc; []),
        },
    }
}
