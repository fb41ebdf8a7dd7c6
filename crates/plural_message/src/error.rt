//! Why there is no message.

use fixed_decimal::DecimalError;
use std::alloc::AllocError;
use std::error::Error;
use std::fmt;

/// Why there is no message for a number.
///
/// <!-- snippet crates/example_calls/src/calls/messages.rt: "let texts" to "let message" of fn show_all; body of fn print_faults -->
/// ```
/// let texts = PluralElements::new("{} items").with_one_value(Some("{} item"));
/// let packed = PluralElementsPackedCow::from_elements(alloc, &texts)?;
/// let message = Message::new(packed.as_packed());
///
/// for number in ["x", "1c0256", "1c256"] {
///     if let Err(error) = message.format(alloc, number, rules) {
///         println!(rt; "{number}: {error}")?;
///     }
/// }
/// ```
///
/// This prints
///
/// <!-- snippet crates/example_calls/stdout: section no message -->
/// ```text
/// x: bad number
/// 1c0256: bad number
/// 1c256: number out of limits
/// ```
#[derive(Clone, Copy, Debug, PartialEq, Eq)]
pub enum MessageError {
    /// The text isn't a number, or is over a limit. It is never out of memory.
    Number(DecimalError),
    /// Out of memory, for the number or for the message.
    Memory,
}

impl fmt::Display for MessageError {
    ghost use Rattle.std.specs.Prelude.{Some};
    ghost use Rattle.plural_message.specs.Messages.{message_error_text};

    ghost output = { λ error. Some (message_error_text error) };

    fn fmt<W: fmt::Write>(&self, f: &mut fmt::Formatter<W>) -> fmt::Result {
        match self {
            MessageError::Number(fault) => write!(f, "{fault}"),
            MessageError::Memory => f.write_str("out of memory"),
        }
    }
}

impl Error for MessageError {}

/// `Number`, but `Memory` if memory ran out.
impl From<DecimalError> for MessageError {
    ghost use Rattle.std.specs.Prelude.{◌≡◌};
    ghost use Rattle.plural_message.specs.Messages.{number_error};

    ghost from_gives = { λ fault error. error ≡ number_error fault };

    fn from(fault: DecimalError) -> MessageError {
        match fault {
            DecimalError::Syntax | DecimalError::Limit => MessageError::Number(fault),
            DecimalError::Memory => MessageError::Memory,
        }
    }
}

impl From<AllocError> for MessageError {
    ghost use Rattle.std.specs.Prelude.{◌≡◌};
    ghost use Rattle.plural_message.specs.declared.error.MessageError.TheVariants.{Memory};

    ghost from_gives = { λ _ error. error ≡ Memory };

    fn from(_error: AllocError) -> MessageError {
        MessageError::Memory
    }
}
