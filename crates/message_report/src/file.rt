//! What is found in files of messages.

ghost use Rattle.std.specs.Prelude.{IfOk, OnOk};
ghost use Rattle.message_report.specs.FoundInMessages.{HasGrownInMessages};
ghost use Rattle.message_report.specs.MessagesReport.{IsFoundInFile, IsFoundInFiles};

use crate::document::add_document;
use crate::found::Found;
use crate::source::RulesOfLocales;
use plural_documents::Findings;
use serde_json::Value;
use std::alloc::{AllocError, Global};

/// A file of messages.
#[derive(Clone, Copy, Debug)]
pub struct MessageFile<'a> {
    /// Its name, with which its lines begin.
    pub name: &'a str,
    /// Its document.
    pub document: &'a Value,
}

/// Returns what is found in files: file by file, in the order in which they are given. It allocates.
///
/// The only error is out of memory.
pub fn found_in_files<'a, S: RulesOfLocales>(
    alloc: Global,
    source: &S,
    files: &[MessageFile<'a>],
) -> Result<Found<'a>, AllocError>
    ensures { IfOk result (λ found. IsFoundInFiles (S.source source.now) files.now found) }
{
    let mut found = Found::nothing(alloc);
    add_files(alloc, source, files, &mut found)?;
    Ok(found)
}

// Adds what is found in each file.
fn add_files<'a, S: RulesOfLocales>(
    alloc: Global,
    source: &S,
    files: &[MessageFile<'a>],
    found: &mut Found<'a>,
) -> Result<(), AllocError>
    ensures { OnOk result (HasGrownInMessages (IsFoundInFiles (S.source source.now) files.now) found.old found.new) }
{
    for file in files {
        add_document(alloc, source, file.name, file.document, found)?;
    }
    Ok(())
}
