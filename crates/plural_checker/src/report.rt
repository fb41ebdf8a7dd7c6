//! What a check found.

ghost use Rattle.std.specs.Prelude.{◌≡◌, ◌+◌, ◌∷◌, ◌++◌, [], OnOk};
ghost use Rattle.plural_checker.specs.Findings.{IsCountOf};

use crate::fault::Fault;
use icu_plurals::Sequence;
use std::alloc::{AllocError, Global};

/// What is wrong with a language's texts, and how many numbers their samples have.
#[derive(Debug, Drop)]
pub struct Report {
    /// The faults, in the order of [`check_texts`](crate::check_texts).
    pub faults: Sequence<Fault>,
    /// How many numbers the samples have, or `u64::MAX` if there are more.
    pub numbers: u64,
}

impl Report {
    // A report of no fault and no number.
    pub(crate) fn new(alloc: Global) -> Report
        ensures { result ≡ record { faults = []; numbers = 0 } }
    {
        Report {
            faults: Sequence::from(Vec::new(alloc)),
            numbers: 0,
        }
    }

    // Appends a fault.
    pub(crate) fn add(&mut self, fault: Fault) -> Result<(), AllocError>
        ensures { OnOk result (self.new ≡ record self.old { faults = self.old.faults ++ fault ∷ [] }) }
    {
        let faults = &mut self.faults;
        faults.0.push(fault)?;
        Ok(())
    }

    // Adds this many numbers.
    pub(crate) fn count(&mut self, numbers: u64)
        ensures faults { self.new.faults ≡ self.old.faults }
        ensures numbers { IsCountOf self.new.numbers (self.old.numbers + numbers) }
    {
        self.numbers = self.numbers.saturating_add(numbers);
    }
}
