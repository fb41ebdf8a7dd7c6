//! What is told, as commands of a workflow of GitHub Actions.

ghost use Rattle.std.specs.Prelude.{◌≡◌, IfOk, map, string_bytes};
ghost use Rattle.finding_formats.specs.WorkflowCommands.{located_command, located_commands};
ghost use Rattle.finding_formats.specs.LocatedFindings.{located_view};
ghost use Rattle.finding_formats.specs.LocatedFindings as listed;

use crate::command::command_text;
use crate::located::Located;
use crate::located_words::located_words;
use crate::workflow::{Slot, slot_text};
use plural_documents::{LinePrinter, push_lines};
use std::alloc::{AllocError, Global};

// A command for each.
pub(crate) fn located_commands(alloc: Global, located: &[Located<'_>]) -> Result<String, AllocError>
    ensures { IfOk result (λ text. string_bytes text ≡ located_commands (map located_view located.now)) }
{
    let mut text = String::new(alloc);
    push_lines(alloc, &mut LocatedCommands, located, &mut text)?;
    Ok(text)
}

// The commands of what is told.
#[derive(Drop)]
struct LocatedCommands;

impl<'a> LinePrinter<Located<'a>> for LocatedCommands {
    ghost Seen = { listed.Located };

    ghost seen = { located_view };

    ghost line_of = { λ commands. located_command };

    fn push(
        &mut self,
        alloc: Global,
        one: &Located<'a>,
        text: &mut String,
    ) -> Result<(), AllocError> {
        let command = located_command(alloc, one)?;
        text.push_str(command.as_str())
    }
}

// The command of one, with a newline.
fn located_command(alloc: Global, one: &Located<'_>) -> Result<String, AllocError>
    ensures { IfOk result (λ text. string_bytes text ≡ located_command (located_view one.now)) }
{
    let told = one.told;
    let title = slot_text(alloc, Slot::Property, told.code())?;
    let words = located_words(alloc, one)?;
    command_text(
        alloc,
        told.severity(),
        told.file(),
        one.known_line(),
        title.as_str(),
        words.as_str(),
    )
}
