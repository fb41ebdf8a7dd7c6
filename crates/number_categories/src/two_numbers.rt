//! Two numbers of some kind.

ghost use Rattle.std.specs.Prelude.{◌≡◌, IsFalse, IsSome, IsTrue};
ghost use Rattle.number_categories.specs.Inner.SoughtNumbers.{are_enough, no_numbers, with_number};

/// The two least numbers of some kind, as far as there are two, or the least one alone.
#[derive(Clone, Copy, Debug, PartialEq, Eq)]
pub struct TwoNumbers {
    /// The least.
    pub first: Option<u16>,
    /// The next one.
    pub second: Option<u16>,
}

impl TwoNumbers {
    // No numbers.
    pub(crate) fn none() -> TwoNumbers
        ensures { result ≡ no_numbers }
    {
        TwoNumbers {
            first: None,
            second: None,
        }
    }

    // Adds a number above these, unless there are two. Whether there weren't.
    #[inline]
    pub(crate) fn add(&mut self, number: u16) -> bool
        ensures added { self.new ≡ with_number self.old number }
        ensures full { IsFalse result → IsSome self.old.second }
    {
        if self.first.is_none() {
            self.first = Some(number);
            return true;
        }
        if self.second.is_none() {
            self.second = Some(number);
            return true;
        }
        false
    }

    // Whether there are two, or one where that is enough, if they are sought.
    pub(crate) fn are_enough(self, is_sought: bool, first_alone: bool) -> bool
        ensures { IsTrue result → IsTrue is_sought → IsTrue (are_enough first_alone self) }
    {
        if !is_sought {
            return true;
        }
        if first_alone {
            self.first.is_some()
        } else {
            self.second.is_some()
        }
    }
}
