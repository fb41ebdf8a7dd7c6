//! Commands of a workflow of GitHub Actions.

ghost use Rattle.std.specs.Prelude.{◌≡◌, ◌++◌, IfOk, OnOk, string_bytes};
ghost use Rattle.std.specs.Char.{encode_utf8};
ghost use Rattle.std.specs.List.{flat_map};
ghost use Rattle.finding_formats.specs.WorkflowCommands.{command_line, ends_message, needs_escape, slot_byte, slot_text, workflow_text};
ghost use Rattle.message_report.specs.MessageFindings.{message_finding_view};
ghost use Rattle.message_report.specs.MessageFindings as listed;

use crate::code::Code;
use crate::command::command_text;
use crate::finding_object::finding_text;
use message_report::{Finding, Found};
use percent_encoding::percent_encode_byte;
use plural_documents::{LinePrinter, push_lines};
use std::alloc::{AllocError, Global};

// Where a text stands in a command.
#[derive(Clone, Copy)]
pub(crate) enum Slot {
    // Its message.
    Message,
    // The value of a property.
    Property,
}

// A command for each finding.
pub(crate) fn workflow_text(alloc: Global, found: &Found<'_>) -> Result<String, AllocError>
    ensures { IfOk result (λ text. string_bytes text ≡ workflow_text found.now) }
{
    let mut text = String::new(alloc);
    push_lines(alloc, &mut FindingCommands, found.findings(), &mut text)?;
    Ok(text)
}

// The commands of findings.
#[derive(Drop)]
struct FindingCommands;

impl<'a> LinePrinter<Finding<'a>> for FindingCommands {
    ghost Seen = { listed.MessageFinding };

    ghost seen = { message_finding_view };

    ghost line_of = { λ commands. command_line };

    fn push(
        &mut self,
        alloc: Global,
        finding: &Finding<'a>,
        text: &mut String,
    ) -> Result<(), AllocError> {
        let command = command_line(alloc, finding)?;
        text.push_str(command.as_str())
    }
}

// The command of a finding, with a newline.
fn command_line(alloc: Global, finding: &Finding<'_>) -> Result<String, AllocError>
    ensures { IfOk result (λ line. string_bytes line ≡ command_line (message_finding_view finding.now)) }
{
    let text = finding_text(alloc, finding)?;
    let code = Code::of(finding.cause).as_str();
    let severity = finding.cause.severity();
    command_text(
        alloc,
        severity,
        finding.place.file(),
        None,
        code,
        text.as_str(),
    )
}

// A text as it stands in a command.
pub(crate) fn slot_text(alloc: Global, slot: Slot, part: &str) -> Result<String, AllocError>
    ensures { IfOk result (λ text. string_bytes text ≡ slot_text slot part.now) }
{
    let mut text = String::new(alloc);
    push_escaped(&mut text, slot, part)?;
    Ok(text)
}

// Appends a text, with escapes.
fn push_escaped(text: &mut String, slot: Slot, part: &str) -> Result<(), AllocError>
    ensures { OnOk result (string_bytes text.new ≡ string_bytes text.old ++ slot_text slot part.now) }
{
    for c in part.chars() {
        push_char(text, slot, c)?;
    }
    Ok(())
}

// Appends a character, or its escape.
fn push_char(text: &mut String, slot: Slot, c: char) -> Result<(), AllocError>
    ensures { OnOk result (string_bytes text.new ≡ string_bytes text.old ++ flat_map (slot_byte slot) (encode_utf8 c)) }
{
    if needs_escape(slot, c as u32) {
        return text.push_str(percent_encode_byte(c as u32 as u8));
    }
    text.push(c)
}

// Whether a character needs an escape.
fn needs_escape(slot: Slot, c: u32) -> bool
    ensures { result ≡ needs_escape slot c }
{
    match slot {
        Slot::Message => ends_message(c),
        Slot::Property => ends_message(c) || c == 58 || c == 44,
    }
}

// Whether a character would end a message, or begin an escape.
fn ends_message(c: u32) -> bool
    ensures { result ≡ ends_message c }
{
    c == 37 || c == 13 || c == 10
}
