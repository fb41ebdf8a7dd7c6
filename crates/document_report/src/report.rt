//! The report of a document.

ghost use Rattle.std.specs.Prelude.{◌≡◌, [], IfOk, OnOk, map, string_bytes};
ghost use Rattle.std.specs.List.{flat_map};
ghost use Rattle.document_report.specs.CheckAnswer.{verdict_of_report, report_status};
ghost use Rattle.document_report.specs.CheckedDocument.{members_at};
ghost use Rattle.document_report.specs.DocumentFindings.{finding_view};
ghost use Rattle.document_report.specs.DocumentReport.{found_of_count, IsFoundInDocument, IsFoundInRanges, IsFoundInRules, IsReportOf};
ghost use Rattle.document_report.specs.FoundInDocuments.{nothing_found, together, HasGrownInDocument, IsFoundInDocumentMembers};
ghost use Rattle.document_report.specs.ReportText.{counts_in, counts_line, counts_of, findings_in, printed_finding, report_text};
ghost use Rattle.plural_fallback.specs.declared.locales.Part.TheVariants.{Ranges};
ghost use Rattle.serde_json.specs.View.{view};

use crate::cause::Cause;
use crate::counts::Counts;
use crate::document::{add_members_of, members_of};
use crate::finding::Finding;
use crate::finding_lines::FindingLines;
use crate::finding_place::FindingPlace;
use crate::found::Found;
use crate::keys::PartCheck;
use crate::languages::add_languages;
use crate::locales::locale_count;
use crate::parents::add_parents;
use crate::tables::TableCheck;
use plural_documents::{Findings, KeptPlace, push_lines};
use plural_fallback::Part;
use serde_json::Value;
use std::alloc::{AllocError, Global};

/// The report of a document: how many locales it has, and what was found.
///
/// A fault has a finding, unless ten of its text come before it; one more finding then counts the
/// others ([`Cause::More`]).
#[derive(Debug, Drop)]
pub struct Report<'a> {
    pub(crate) locales: u64,
    pub(crate) found: Found<'a>,
}

/// Whether a document has a fault.
#[derive(Clone, Copy, Debug, PartialEq, Eq)]
pub enum Verdict {
    /// The document has no fault.
    NoFaults,
    /// The document has at least one fault.
    Faults,
}

impl Verdict {
    /// Returns the exit status of the program: 0 without faults, 1 with some.
    pub fn status(self) -> u8
        ensures { result ≡ report_status self }
    {
        match self {
            Verdict::NoFaults => 0,
            Verdict::Faults => 1,
        }
    }
}

/// Returns the report of a document: what is found in the keys of its parts, in the rules for
/// cardinal and for ordinal numbers, in the ranges, and in the parents, each in the order of the
/// locales' bytes; and then that it has no locale. It allocates.
///
/// The only error is out of memory. The form of the document isn't looked at, as
/// [`run`](crate::run::run) does first.
pub fn report_of<'a>(alloc: Global, document: &'a Value) -> Result<Report<'a>, AllocError>
    ensures { IfOk result (λ report. IsReportOf (view document.now) report) }
{
    let locales = locale_count(document)?;
    match found_in(alloc, document) {
        Ok(mut found) => add_count(locales, &mut found).and(Ok(Report { locales, found })),
        Err(error) => Err(error),
    }
}

// Adds a fault if there is no locale.
fn add_count(locales: u64, found: &mut Found<'_>) -> Result<(), AllocError>
    ensures { OnOk result (found.new ≡ together found.old (found_of_count locales)) }
{
    if locales != 0 {
        return Ok(());
    }
    found.add_fault(FindingPlace::Document, Cause::NoLocale)
}

// What is found in the keys of the parts, in the three parts, and in the parents.
fn found_in<'a>(alloc: Global, document: &'a Value) -> Result<Found<'a>, AllocError>
    ensures { IfOk result (λ found. IsFoundInDocument (view document.now) found) }
{
    let mut found = Found::nothing(alloc);
    add_parts(alloc, document, &mut found).and(Ok(found))
}

// Adds it to nothing.
fn add_parts<'a>(
    alloc: Global,
    document: &'a Value,
    found: &mut Found<'a>,
) -> Result<(), AllocError>
    requires { found.old ≡ nothing_found }
    ensures { OnOk result (IsFoundInDocument (view document.now) found.new) }
{
    add_members_of(alloc, &PartCheck, document.as_object(), found)?;
    add_rules(alloc, document, Part::Cardinal, found)?;
    add_rules(alloc, document, Part::Ordinal, found)?;
    add_ranges(alloc, document, found)?;
    add_parents(alloc, document, found)
}

// Adds what is found in the rules of a part.
fn add_rules<'a>(
    alloc: Global,
    document: &'a Value,
    part: Part,
    found: &mut Found<'a>,
) -> Result<(), AllocError>
    ensures { OnOk result (HasGrownInDocument (IsFoundInDocumentMembers (IsFoundInRules part) (members_at part (view document.now))) found.old found.new) }
{
    match members_of(document, part) {
        Some(members) => add_languages(alloc, part, members, found),
        None => Ok(()),
    }
}

// Adds what is found in the ranges.
fn add_ranges<'a>(
    alloc: Global,
    document: &'a Value,
    found: &mut Found<'a>,
) -> Result<(), AllocError>
    ensures { OnOk result (HasGrownInDocument
        (IsFoundInDocumentMembers (IsFoundInRanges (view document.now)) (members_at Ranges (view document.now))) found.old found.new) }
{
    let members = members_of(document, Part::Ranges);
    add_members_of(alloc, &TableCheck { document }, members, found)
}

impl<'a> Report<'a> {
    /// Returns the findings, in their order.
    pub fn findings(&self) -> &[Finding<'a>]
        ensures { map finding_view result.now ≡ findings_in self.now }
    {
        self.found.findings()
    }

    /// Returns the counts.
    pub fn counts(&self) -> Counts
        ensures { result ≡ counts_in self.now }
    {
        Counts {
            locales: self.locales,
            rules: self.found.checked(),
            numbers: self.found.cases(),
            faults: self.found.faults(),
        }
    }

    /// Returns whether the document has a fault.
    pub fn verdict(&self) -> Verdict
        ensures { result ≡ verdict_of_report self.now }
    {
        if self.found.faults() == 0 {
            Verdict::NoFaults
        } else {
            Verdict::Faults
        }
    }

    /// Returns the text of the report: a line for each finding, and one with the counts. It
    /// allocates; the only error is out of memory.
    pub fn text(&self, alloc: Global) -> Result<String, AllocError>
        ensures { IfOk result (λ text. string_bytes text ≡ report_text self.now) }
    {
        let mut text = String::new(alloc);
        self.push_text(alloc, &mut text).and(Ok(text))
    }

    // Appends the text of the report.
    fn push_text(&self, alloc: Global, text: &mut String) -> Result<(), AllocError>
        requires { string_bytes text.old ≡ [] }
        ensures { OnOk result (string_bytes text.new ≡ report_text self.now) }
    {
        let mut lines = FindingLines {
            place: KeptPlace::new(alloc),
        };
        push_lines(alloc, &mut lines, self.findings(), text)?;
        let last = self.last_line(alloc)?;
        text.push_str(last.as_str())
    }

    // The line with the counts of the report.
    fn last_line(&self, alloc: Global) -> Result<String, AllocError>
        ensures { IfOk result (λ line. string_bytes line ≡ counts_of self.now) }
    {
        let found = &self.found;
        counts_line(
            alloc,
            self.locales,
            found.checked(),
            found.cases(),
            found.faults(),
        )
    }
}

// The line with these counts.
fn counts_line(
    alloc: Global,
    locales: u64,
    rules: u64,
    numbers: u64,
    faults: u64,
) -> Result<String, AllocError>
    ensures { IfOk result (λ line. string_bytes line ≡ counts_line locales rules numbers faults) }
{
    format!(in alloc; "locales: {locales}, rules: {rules}, numbers: {numbers}, faults: {faults}\n")
}
