//! How grave a finding is.

ghost use Rattle.std.specs.Prelude.{◌≡◌};
ghost use Rattle.message_report.specs.FindingCauses.{severity_name};

/// How grave a finding is.
#[derive(Clone, Copy, Debug, PartialEq, Eq)]
pub enum Severity {
    /// A fault, which counts for the status.
    Error,
    /// What is only advised.
    Note,
}

impl Severity {
    /// Returns its word: `error` or `note`.
    pub fn as_str(self) -> &'static str
        ensures { result.now ≡ severity_name self }
    {
        match self {
            Severity::Error => "error",
            Severity::Note => "note",
        }
    }
}
