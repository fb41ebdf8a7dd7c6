//! A command of a workflow of GitHub Actions.

ghost use Rattle.std.specs.Prelude.{◌≡◌, ◌++◌, codes, IfOk, string_bytes};
ghost use Rattle.finding_formats.specs.WorkflowCommands.{command_name, command_text};

use crate::line_mark::line_mark;
use crate::workflow::{Slot, slot_text};
use message_report::Severity;
use std::alloc::{AllocError, Global};

// A command, with a newline; its title is given as it stands there.
pub(crate) fn command_text(
    alloc: Global,
    severity: Severity,
    file: &str,
    line: Option<u64>,
    title: &str,
    message: &str,
) -> Result<String, AllocError>
    ensures { IfOk result (λ text. string_bytes text ≡ command_text severity file.now line title.now message.now) }
{
    let file = slot_text(alloc, Slot::Property, file)?;
    let mark = line_mark(alloc, ",line=", line)?;
    let message = slot_text(alloc, Slot::Message, message)?;
    command_of(
        alloc,
        command_name(severity),
        file.as_str(),
        mark.as_str(),
        title,
        message.as_str(),
    )
}

// The name of the command.
fn command_name(severity: Severity) -> &'static str
    ensures { result.now ≡ command_name severity }
{
    match severity {
        Severity::Error => "error",
        Severity::Note => "notice",
    }
}

// A command of parts as they stand there, with a newline.
fn command_of(
    alloc: Global,
    name: &str,
    file: &str,
    mark: &str,
    title: &str,
    message: &str,
) -> Result<String, AllocError>
    ensures { IfOk result (λ text. string_bytes text ≡ codes "::" ++ (name.now ++ (codes " file=" ++ (file.now ++ (mark.now
        ++ (codes ",title=" ++ (title.now ++ (codes "::" ++ (message.now ++ codes "\n"))))))))) }
{
    format!(in alloc; "::{name} file={file}{mark},title={title}::{message}\n")
}
