//! The totals of a report.

/// How many messages and forms of files were checked, and how much is told of them.
#[derive(Clone, Copy, Debug, PartialEq, Eq)]
pub struct Totals {
    /// The messages.
    pub messages: u64,
    /// Their forms.
    pub forms: u64,
    /// The faults.
    pub faults: u64,
    /// What is only noted.
    pub notes: u64,
    /// The entries that were left out.
    pub left_out: u64,
}
