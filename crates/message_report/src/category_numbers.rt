//! The whole numbers that have a category.

ghost use Rattle.std.specs.Prelude.{◌≡◌};
ghost use Rattle.message_report.specs.Inner.KnownNumbers.{chosen_of};

use number_categories::TwoNumbers;

// What is known of the whole numbers that have a category.
#[derive(Clone, Copy)]
pub(crate) struct CategoryNumbers {
    // Whether 0 has it.
    pub(crate) zero: bool,
    // Whether 1 has it.
    pub(crate) one: bool,
    // The two least from 2.
    pub(crate) from_two: TwoNumbers,
}

impl CategoryNumbers {
    // The two least numbers, without 0 and without 1 if these have forms of their own.
    pub(crate) fn chosen(self, own_zero: bool, own_one: bool) -> TwoNumbers
        ensures { result ≡ chosen_of self own_zero own_one }
    {
        let first = self.from_two.first;
        match (self.zero && !own_zero, self.one && !own_one) {
            (true, true) => TwoNumbers {
                first: Some(0),
                second: Some(1),
            },
            (true, false) => TwoNumbers {
                first: Some(0),
                second: first,
            },
            (false, true) => TwoNumbers {
                first: Some(1),
                second: first,
            },
            (false, false) => self.from_two,
        }
    }
}
