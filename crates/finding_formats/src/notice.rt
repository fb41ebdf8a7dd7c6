//! What is told of a file besides the findings of its messages.

use message_report::Severity;

/// What is told of a file besides the findings of its messages, as that an entry was left out.
///
/// The text format prints its code and its text as they are, so control characters don't belong
/// there; the other formats escape them.
#[derive(Clone, Copy, Debug)]
pub struct Notice<'a> {
    /// The name of the file.
    pub file: &'a str,
    /// How grave it is.
    pub severity: Severity,
    /// What is told, in a word that stays the same.
    pub code: &'a str,
    /// The same in a sentence, which names the place.
    pub text: &'a str,
}
