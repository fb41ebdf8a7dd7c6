//! How many rows there were.

use std::alloc::{AllocError, Global};

/// The rows of one kind.
#[derive(Drop)]
pub struct KindCount {
    /// The kind.
    pub kind: String,
    /// How many rows of it were compared.
    pub rows: u64,
}

/// Counts of rows.
#[derive(Drop)]
pub struct Tally {
    /// The rows of each kind, in the order in which the kinds first come.
    pub kinds: Vec<KindCount>,
    /// All rows.
    pub rows: u64,
    /// Rows with another result than the wanted one, and faults.
    pub wrong: u64,
    /// How often memory was wanted, and asked for again.
    pub asked_again: u64,
}

impl Tally {
    /// Returns counts of 0.
    pub fn new(alloc: Global) -> Tally {
        Tally {
            kinds: Vec::new(alloc),
            rows: 0,
            wrong: 0,
            asked_again: 0,
        }
    }

    /// Counts a row of a kind, which allocates if it is the first one.
    pub fn count(&mut self, alloc: Global, kind: &str) -> Result<(), AllocError> {
        for known in &mut self.kinds {
            if known.kind.as_str() == kind {
                known.rows = known.rows.saturating_add(1);
                return Ok(());
            }
        }
        let kind = String::from_str(alloc, kind)?;
        self.kinds.push(KindCount { kind, rows: 1 })?;
        Ok(())
    }

    /// Counts a row, of whatever kind.
    pub fn count_row(&mut self) {
        self.rows = self.rows.saturating_add(1);
    }

    /// Counts a row that is asked again.
    pub fn ask_again(&mut self) {
        self.asked_again = self.asked_again.saturating_add(1);
    }

    /// Counts a row that is wrong, or another fault.
    pub fn count_wrong(&mut self) {
        self.wrong = self.wrong.saturating_add(1);
    }
}
