//! What is found in a document, one finding after the other.

ghost use Rattle.std.specs.Prelude.{◌≡◌, ◌∷◌, [], OnOk, map};
ghost use Rattle.document_report.specs.DocumentFindings.{finding_view};
ghost use Rattle.document_report.specs.DocumentPlaces.{finding_place_view};
ghost use Rattle.document_report.specs.FoundInDocuments.{cases_alone, checked_alone, document_fault_at, faults_alone, finding_at, findings_alone};
ghost use Rattle.document_report.specs.FoundInDocuments.{rest_of, together};

use crate::cause::Cause;
use crate::finding::Finding;
use crate::finding_place::FindingPlace;
use plural_documents::{Findings, MOST_TOLD, sum};
use std::alloc::{AllocError, Global};
use std::marker::Model;

// What is found in a document: the findings in their order, and how many faults there are, rule
// texts that were checked, and numbers of these.
#[derive(Debug, Drop)]
pub(crate) struct Found<'a> {
    findings: Vec<Finding<'a>>,
    faults: u64,
    checked: u64,
    cases: u64,
}

impl<'a> Model for Found<'a> {
    ghost use Rattle.std.specs.Prelude.{map};
    ghost use Rattle.document_report.specs.DocumentFindings.{finding_view};
    ghost use Rattle.document_report.specs.FoundInDocuments as seen;

    ghost Value = { seen.Found };

    ghost view = { λ found. record {
      findings = map finding_view found.findings.items;
      faults = found.faults;
      checked = found.checked;
      cases = found.cases;
    } };
}

impl<'a> Findings for Found<'a> {
    ghost use Rattle.document_report.specs.Inner.CheckCalls.{together-nothing, together_assoc};
    ghost use Rattle.document_report.specs.FoundInDocuments as seen;

    ghost nothing = { seen.nothing_found };

    ghost together = { seen.together };

    fn nothing(alloc: Global) -> Found<'a> {
        Found {
            findings: Vec::new(alloc),
            faults: 0,
            checked: 0,
            cases: 0,
        }
    }

    ghost ends = { together-nothing };

    ghost joins = { together_assoc };
}

impl<'a> Found<'a> {
    // The findings, in their order.
    pub(crate) fn findings(&self) -> &[Finding<'a>]
        ensures { map finding_view result.now ≡ self.now.findings }
    {
        self.findings.as_slice()
    }

    // How many faults there are.
    pub(crate) fn faults(&self) -> u64
        ensures { result ≡ self.now.faults }
    {
        self.faults
    }

    // How many rule texts were checked.
    pub(crate) fn checked(&self) -> u64
        ensures { result ≡ self.now.checked }
    {
        self.checked
    }

    // How many numbers they have.
    pub(crate) fn cases(&self) -> u64
        ensures { result ≡ self.now.cases }
    {
        self.cases
    }

    // Adds a finding.
    pub(crate) fn add_finding(
        &mut self,
        place: FindingPlace<'a>,
        cause: Cause,
    ) -> Result<(), AllocError>
        ensures { OnOk result (self.new
            ≡ together self.old (findings_alone (finding_at (finding_place_view place.entry) cause ∷ []))) }
    {
        self.findings.push(Finding { place, cause })?;
        Ok(())
    }

    // Adds a fault and its finding. A count that is too large is reported as out of memory.
    pub(crate) fn add_fault(
        &mut self,
        place: FindingPlace<'a>,
        cause: Cause,
    ) -> Result<(), AllocError>
        ensures { OnOk result (self.new ≡ together self.old (document_fault_at (finding_place_view place.entry) cause)) }
    {
        self.faults = sum(self.faults, 1)?;
        self.add_finding(place, cause)
    }

    // Adds the finding that counts what isn't told of a place, if there are more faults than are
    // told.
    pub(crate) fn add_rest(&mut self, place: FindingPlace<'a>, count: u64) -> Result<(), AllocError>
        ensures { OnOk result (self.new
            ≡ together self.old (findings_alone (rest_of (finding_place_view place.entry) count))) }
    {
        if count <= MOST_TOLD {
            return Ok(());
        }
        self.add_finding(place, Cause::More(count - MOST_TOLD))
    }

    // Counts faults. A count that is too large is reported as out of memory.
    pub(crate) fn add_faults(&mut self, faults: u64) -> Result<(), AllocError>
        ensures { OnOk result (self.new ≡ together self.old (faults_alone faults)) }
    {
        self.faults = sum(self.faults, faults)?;
        Ok(())
    }

    // Counts rule texts that were checked. A count that is too large is reported as out of memory.
    pub(crate) fn add_checked(&mut self, checked: u64) -> Result<(), AllocError>
        ensures { OnOk result (self.new ≡ together self.old (checked_alone checked)) }
    {
        self.checked = sum(self.checked, checked)?;
        Ok(())
    }

    // Counts numbers. A count that is too large is reported as out of memory.
    pub(crate) fn add_cases(&mut self, cases: u64) -> Result<(), AllocError>
        ensures { OnOk result (self.new ≡ together self.old (cases_alone cases)) }
    {
        self.cases = sum(self.cases, cases)?;
        Ok(())
    }
}
