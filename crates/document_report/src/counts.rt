//! The counts of a report.

/// How many locales a document has, how many texts of rules and numbers of their samples were
/// checked, and how many faults there are.
#[derive(Clone, Copy, Debug, PartialEq, Eq)]
pub struct Counts {
    /// The locales.
    pub locales: u64,
    /// The texts of rules.
    pub rules: u64,
    /// The numbers of samples.
    pub numbers: u64,
    /// The faults.
    pub faults: u64,
}
