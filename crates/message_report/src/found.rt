//! What is found in files of messages.

ghost use Rattle.std.specs.Prelude.{◌≡◌, ◌∷◌, [], OnOk, map};
ghost use Rattle.message_report.specs.FoundInMessages.{message_findings_alone, message_faults_alone, message_finding_at};
ghost use Rattle.message_report.specs.FoundInMessages.{counted_alone, message_fault_at, counted_finding_at, one_form, one_message, further_message_faults, messages_together};
ghost use Rattle.message_report.specs.Inner.ToldFindings.{note_at};
ghost use Rattle.message_report.specs.MessageFindings.{message_finding_view};
ghost use Rattle.message_report.specs.MessagePlaces.{place_view};
ghost use Rattle.message_report.specs.MessagesReportText.{counts_found};

use crate::cause::Cause;
use crate::counts::Counts;
use crate::finding::Finding;
use crate::place::Place;
use crate::severity::Severity;
use plural_documents::{Findings, MOST_TOLD, sum};
use std::alloc::{AllocError, Global};
use std::marker::Model;

/// What is found in files of messages: the findings in their order, and counts.
///
/// A fault or a note has a finding, unless ten of its message or pattern come before it; one more
/// finding then counts further faults ([`Cause::More`]).
#[derive(Debug, Drop)]
pub struct Found<'a> {
    findings: Vec<Finding<'a>>,
    faults: u64,
    notes: u64,
    messages: u64,
    forms: u64,
}

impl<'a> Model for Found<'a> {
    ghost use Rattle.std.specs.Prelude.{map};
    ghost use Rattle.message_report.specs.FoundInMessages as seen;
    ghost use Rattle.message_report.specs.MessageFindings.{message_finding_view};

    ghost Value = { seen.MessageFound };

    ghost view = { λ found. record {
      findings = map message_finding_view found.findings.items;
      faults = found.faults;
      notes = found.notes;
      messages = found.messages;
      forms = found.forms;
    } };
}

impl<'a> Findings for Found<'a> {
    ghost use Rattle.message_report.specs.Inner.ToldFindings.{messages_together-nothing, messages_together_assoc};
    ghost use Rattle.message_report.specs.FoundInMessages as seen;

    ghost nothing = { seen.nothing_found_in_messages };

    ghost together = { seen.messages_together };

    fn nothing(alloc: Global) -> Found<'a> {
        Found {
            findings: Vec::new(alloc),
            faults: 0,
            notes: 0,
            messages: 0,
            forms: 0,
        }
    }

    ghost ends = { messages_together-nothing };

    ghost joins = { messages_together_assoc };
}

impl<'a> Found<'a> {
    /// Returns the findings, in their order.
    pub fn findings(&self) -> &[Finding<'a>]
        ensures { map message_finding_view result.now ≡ self.now.findings }
    {
        self.findings.as_slice()
    }

    /// Returns the counts.
    pub fn counts(&self) -> Counts
        ensures { result ≡ counts_found self.now }
    {
        Counts {
            messages: self.messages,
            forms: self.forms,
            faults: self.faults,
            notes: self.notes,
        }
    }

    // Adds a finding.
    fn add_finding(&mut self, place: Place<'a>, cause: Cause) -> Result<(), AllocError>
        ensures { OnOk result (self.new ≡ messages_together self.old (message_findings_alone (message_finding_at (place_view place.entry) cause ∷ []))) }
    {
        self.findings.push(Finding { place, cause })?;
        Ok(())
    }

    // Adds a fault and its finding. A count that is too large is reported as out of memory.
    pub(crate) fn add_fault(&mut self, place: Place<'a>, cause: Cause) -> Result<(), AllocError>
        ensures { OnOk result (self.new ≡ messages_together self.old (message_fault_at (place_view place.entry) cause)) }
    {
        self.faults = sum(self.faults, 1)?;
        self.add_finding(place, cause)
    }

    // Adds a note and its finding. A count that is too large is reported as out of memory.
    fn add_note(&mut self, place: Place<'a>, cause: Cause) -> Result<(), AllocError>
        ensures { OnOk result (self.new ≡ messages_together self.old (note_at (place_view place.entry) cause)) }
    {
        self.notes = sum(self.notes, 1)?;
        self.add_finding(place, cause)
    }

    // Adds a fault or a note, and its finding. A count that is too large is reported as out of
    // memory.
    pub(crate) fn add(&mut self, place: Place<'a>, cause: Cause) -> Result<(), AllocError>
        ensures { OnOk result (self.new ≡ messages_together self.old (counted_finding_at (place_view place.entry) cause)) }
    {
        match cause.severity() {
            Severity::Error => self.add_fault(place, cause),
            Severity::Note => self.add_note(place, cause),
        }
    }

    // Counts a fault or a note. A count that is too large is reported as out of memory.
    pub(crate) fn count(&mut self, severity: Severity) -> Result<(), AllocError>
        ensures { OnOk result (self.new ≡ messages_together self.old (counted_alone severity)) }
    {
        match severity {
            Severity::Error => self.count_fault(),
            Severity::Note => self.count_note(),
        }
    }

    // Counts a note. A count that is too large is reported as out of memory.
    fn count_note(&mut self) -> Result<(), AllocError>
        ensures { OnOk result (self.new ≡ messages_together self.old (counted_alone Severity.Note)) }
    {
        self.notes = sum(self.notes, 1)?;
        Ok(())
    }

    // Counts a fault. A count that is too large is reported as out of memory.
    pub(crate) fn count_fault(&mut self) -> Result<(), AllocError>
        ensures { OnOk result (self.new ≡ messages_together self.old (message_faults_alone 1)) }
    {
        self.faults = sum(self.faults, 1)?;
        Ok(())
    }

    // Adds the finding that counts what isn't told of a place, if there are more faults than are
    // told.
    pub(crate) fn add_rest(&mut self, place: Place<'a>, count: u64) -> Result<(), AllocError>
        ensures { OnOk result (self.new ≡ messages_together self.old (message_findings_alone (further_message_faults (place_view place.entry) count))) }
    {
        if count <= MOST_TOLD {
            return Ok(());
        }
        self.add_finding(place, Cause::More(count - MOST_TOLD))
    }

    // Counts a message. A count that is too large is reported as out of memory.
    pub(crate) fn count_message(&mut self) -> Result<(), AllocError>
        ensures { OnOk result (self.new ≡ messages_together self.old one_message) }
    {
        self.messages = sum(self.messages, 1)?;
        Ok(())
    }

    // Counts a form. A count that is too large is reported as out of memory.
    pub(crate) fn count_form(&mut self) -> Result<(), AllocError>
        ensures { OnOk result (self.new ≡ messages_together self.old one_form) }
    {
        self.forms = sum(self.forms, 1)?;
        Ok(())
    }
}
