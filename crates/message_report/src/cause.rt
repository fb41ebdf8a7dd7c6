//! What is wrong at a place.

ghost use Rattle.std.specs.Prelude.{◌≡◌, Some};
ghost use Rattle.message_report.specs.FindingCauses.{branch_severity, message_cause_text, form_severity, no_rules_text, severity_of};

use crate::branch_fault::BranchFault;
use crate::fault::FormFault;
use crate::severity::Severity;
use icu_plurals::PluralRuleType;
use message_pattern::{FaultKind, PatternError};
use std::fmt;

/// What is wrong at a place.
#[derive(Clone, Copy, Debug, PartialEq, Eq)]
pub enum Cause {
    /// It should be an object.
    NoObject,
    /// The key of a locale names no part.
    NotAPart,
    /// What a message's source has should be a list of texts.
    NoTextList,
    /// There are no rules of this type for the locale.
    NoRules(PluralRuleType),
    /// The fault of a form.
    Form(FormFault),
    /// The key of a message names no form.
    NotAForm,
    /// A pattern should be a text.
    NoText,
    /// The text is no pattern: its first fault, and the byte where it is.
    NoPattern(FaultKind, usize),
    /// The fault of a branch.
    Branch(BranchFault),
    /// So many more faults of the place aren't told.
    More(u64),
}

impl Cause {
    /// Returns how grave it is: what only large numbers, compact ones or fractions choose may be
    /// missing, and all else is a fault.
    pub fn severity(self) -> Severity
        ensures { result ≡ severity_of self }
    {
        match self {
            Cause::Form(fault) => form_severity(fault),
            Cause::Branch(fault) => branch_severity(fault),
            _ => Severity::Error,
        }
    }
}

// How grave the fault of a form is.
fn form_severity(fault: FormFault) -> Severity
    ensures { result ≡ form_severity fault }
{
    match fault {
        FormFault::MissingRare(..) => Severity::Note,
        _ => Severity::Error,
    }
}

// How grave the fault of a branch is.
fn branch_severity(fault: BranchFault) -> Severity
    ensures { result ≡ branch_severity fault }
{
    match fault {
        BranchFault::MissingRare(..) => Severity::Note,
        _ => Severity::Error,
    }
}

impl fmt::Display for Cause {
    ghost output = { λ cause. Some (message_cause_text cause) };

    fn fmt<W: fmt::Write>(&self, f: &mut fmt::Formatter<W>) -> fmt::Result {
        match *self {
            Cause::NoObject => f.write_str("no object"),
            Cause::NotAPart => f.write_str("not a part"),
            Cause::NoTextList => f.write_str("no list of texts"),
            Cause::NoRules(rule_type) => f.write_str(no_rules_text(rule_type)),
            Cause::Form(fault) => write!(f, "{fault}"),
            Cause::NotAForm => f.write_str("not a form"),
            Cause::NoText => f.write_str("no text"),
            Cause::NoPattern(kind, byte) => {
                write!(f, "no pattern: {}", PatternError::Fault(kind, byte))
            }
            Cause::Branch(fault) => write!(f, "{fault}"),
            Cause::More(count) => write!(f, "and {count} more"),
        }
    }
}

// What is told of missing rules.
fn no_rules_text(rule_type: PluralRuleType) -> &'static str
    ensures { result.now ≡ no_rules_text rule_type }
{
    match rule_type {
        PluralRuleType::Cardinal => "no cardinal rules",
        PluralRuleType::Ordinal => "no ordinal rules",
    }
}
