//! Laws of the definitions that the contracts name.

ghost use Rattle.message_format.specs.FormatMeaning.{HaveOneOutcome};

use fixed_decimal::laws::texts_write_one_number;

/// A pattern says at most one thing with its arguments: one text, or one fault.
pub fn one_outcome()
    ensures { HaveOneOutcome }
{
    // A text writes one number at most.
    texts_write_one_number();
}
