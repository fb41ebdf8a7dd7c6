//! The counts of a report.

ghost use Rattle.std.specs.Prelude.{◌≡◌};
ghost use Rattle.message_report.specs.MessagesRun.{counts_status};

/// How many messages and forms were checked, and how many faults and notes they have.
#[derive(Clone, Copy, Debug, PartialEq, Eq)]
pub struct Counts {
    /// The messages.
    pub messages: u64,
    /// Their forms.
    pub forms: u64,
    /// Their faults.
    pub faults: u64,
    /// Their notes, which don't count for the status.
    pub notes: u64,
}

impl Counts {
    /// Returns the exit status of a program: 0 without faults, 1 with some.
    pub fn status(self) -> u8
        ensures { result ≡ counts_status self }
    {
        if self.faults == 0 { 0 } else { 1 }
    }
}
