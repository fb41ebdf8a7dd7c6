//! What formats call a severity.

ghost use Rattle.std.specs.Prelude.{◌≡◌};
ghost use Rattle.finding_formats.specs.FindingCodes.{level_name, severity_word};

use message_report::Severity;

// What JSON calls it.
pub(crate) fn severity_word(severity: Severity) -> &'static str
    ensures { result.now ≡ severity_word severity }
{
    match severity {
        Severity::Error => "fault",
        Severity::Note => "note",
    }
}

// What SARIF calls it.
pub(crate) fn level(severity: Severity) -> &'static str
    ensures { result.now ≡ level_name severity }
{
    match severity {
        Severity::Error => "error",
        Severity::Note => "note",
    }
}
