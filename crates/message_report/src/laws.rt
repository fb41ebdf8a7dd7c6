//! A law on whole numbers: the contract of a function.

ghost use Rattle.message_report.specs.WholeNumberLaws.{WholeNumbersTellAll};

/// Where each modulus on `n` and `i` divides 100, and without a modulus they are compared with
/// numbers below 9800 alone, what [`two_least`](number_categories::two_least) finds below 10000 holds
/// of all whole numbers: if it finds none, none has the category, and if it finds one, no other has
/// it.
pub fn whole_numbers_tell_all()
    ensures { WholeNumbersTellAll }
{}
