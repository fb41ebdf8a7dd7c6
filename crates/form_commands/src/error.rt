//! Why a question has no answer, and the exit status of the program.

ghost use Rattle.std.specs.Prelude.{◌≡◌, Some};
ghost use Rattle.form_commands.specs.FormsErrors.{forms_status, is_of_rules, language_error_text, language_status, strict_verdict, verdict_status};

use crate::name::Name;
use crate::similar_keys::SimilarKeys;
use icu_plurals::JsonError;
use message_report::ReportError;
use number_lines::LinesError;
use plural_documents::InputError;
use plural_fallback::{FallbackError, Part};
use std::{error, fmt};
use thiserror::Error;

/// Whether nothing is missing.
#[derive(Clone, Copy, Debug, PartialEq, Eq)]
pub enum Verdict {
    /// Each number has a category, and no message has a fault or a note.
    Complete,
    /// No message has a fault, but there are notes.
    Noted,
    /// A number has none: its text is out of form, or over a limit; or a message has a fault.
    Faults,
}

impl Verdict {
    /// Returns the exit status of the program: 1 if there are faults, otherwise 0.
    pub fn status(self) -> u8
        ensures { result ≡ verdict_status self }
    {
        match self {
            Verdict::Complete => 0,
            Verdict::Noted => 0,
            Verdict::Faults => 1,
        }
    }

    /// Returns the verdict where notes count as faults.
    pub fn strict(self) -> Verdict
        ensures { result ≡ strict_verdict self }
    {
        match self {
            Verdict::Complete => Verdict::Complete,
            Verdict::Noted => Verdict::Faults,
            Verdict::Faults => Verdict::Faults,
        }
    }
}

/// Why a document gives no rules for a locale.
#[derive(Debug, Drop)]
pub enum LanguageError {
    /// The chain of this locale gives no key in the part.
    NotFound(Part, Name, FallbackError),
    /// The language of this locale is unknown: of the chain only `root` has a key in the part, and
    /// no other has one for cardinal or for ordinal numbers, and neither `root` nor `und` was asked
    /// for. These keys of the part are similar to it.
    Unknown(Part, Name, SimilarKeys),
    /// What the part has under this key is refused. The reason is never out of memory. If it is that
    /// the text of a rule can't be read, this is the byte from which on.
    Refused(Part, Name, JsonError, Option<usize>),
}

impl fmt::Display for LanguageError {
    ghost output = { λ error. Some (language_error_text error) };

    fn fmt<W: fmt::Write>(&self, f: &mut fmt::Formatter<W>) -> fmt::Result {
        match self {
            LanguageError::NotFound(part, locale, reason) => {
                write!(f, "{} {}: {}", part.as_str(), locale.as_str(), *reason)
            }
            LanguageError::Unknown(part, locale, similar) => write!(
                f,
                "{} {}: no rules but those of root{}",
                part.as_str(),
                locale.as_str(),
                similar
            ),
            LanguageError::Refused(part, key, reason, None) => {
                write!(f, "{} {}: {}", part.as_str(), key.as_str(), *reason)
            }
            LanguageError::Refused(part, key, reason, Some(byte)) => write!(
                f,
                "{} {}: {} at byte {}",
                part.as_str(),
                key.as_str(),
                *reason,
                *byte
            ),
        }
    }
}

impl error::Error for LanguageError {}

impl LanguageError {
    // The exit status: 1 if the locale has no rules, otherwise 2.
    fn status(&self) -> u8
        ensures { result ≡ language_status self.now }
    {
        match self {
            LanguageError::NotFound(_, _, FallbackError::NotFound) => 1,
            LanguageError::Unknown(_, _, _) => 1,
            LanguageError::NotFound(_, _, FallbackError::LongChain)
            | LanguageError::NotFound(_, _, FallbackError::NotLoaded)
            | LanguageError::Refused(_, _, _, _) => 2,
        }
    }
}

/// Why a question has no answer, or only a beginning of it.
#[derive(Debug, Drop, Error)]
pub enum FormsError {
    /// The reader of the rules failed.
    #[error("cannot read rules")]
    Rules,
    /// The rules have more than 4194304 bytes.
    #[error("rules too long")]
    TooLong,
    /// The rules are no JSON text.
    #[error("rules are not JSON")]
    Json,
    /// The rules of some locale are refused. The reason is never out of memory.
    #[error("{0}")]
    Refused(JsonError),
    /// The rules have none for the locale.
    #[error("{0}")]
    Language(LanguageError),
    /// The reader of the numbers failed. The lines before were answered.
    #[error("cannot read numbers")]
    Numbers,
    /// The writer failed; it took a beginning of the answer.
    #[error("cannot write output")]
    Write,
    /// Out of memory. Of the answer at most a beginning was written.
    #[error("out of memory")]
    Memory,
}

impl From<InputError> for FormsError {
    ghost use Rattle.form_commands.specs.Inner.FormsInputFaults.{rules_input_fault};

    ghost from_gives = { λ error fault. fault ≡ rules_input_fault error };

    fn from(error: InputError) -> FormsError {
        match error {
            InputError::Read => FormsError::Rules,
            InputError::TooLong => FormsError::TooLong,
            InputError::Memory => FormsError::Memory,
        }
    }
}

impl From<LinesError> for FormsError {
    ghost use Rattle.form_commands.specs.Inner.FormsInputFaults.{lines_fault};

    ghost from_gives = { λ error fault. fault ≡ lines_fault error };

    fn from(error: LinesError) -> FormsError {
        match error {
            LinesError::Read => FormsError::Numbers,
            LinesError::Write => FormsError::Write,
            LinesError::Memory => FormsError::Memory,
        }
    }
}

impl From<ReportError> for FormsError {
    ghost use Rattle.form_commands.specs.Inner.FormsInputFaults.{report_fault};

    ghost from_gives = { λ error fault. fault ≡ report_fault error };

    fn from(error: ReportError) -> FormsError {
        match error {
            ReportError::Write => FormsError::Write,
            ReportError::Memory => FormsError::Memory,
        }
    }
}

impl FormsError {
    /// Returns whether the rules are at fault.
    pub fn is_of_rules(&self) -> bool
        ensures { result ≡ is_of_rules self.now }
    {
        match self {
            FormsError::Rules
            | FormsError::TooLong
            | FormsError::Json
            | FormsError::Refused(_)
            | FormsError::Language(_) => true,
            FormsError::Numbers | FormsError::Write | FormsError::Memory => false,
        }
    }

    /// Returns the exit status of the program: 1 if the locale has no rules, otherwise 2.
    pub fn status(&self) -> u8
        ensures { result ≡ forms_status self.now }
    {
        match self {
            FormsError::Language(error) => error.status(),
            FormsError::Rules
            | FormsError::TooLong
            | FormsError::Json
            | FormsError::Refused(_)
            | FormsError::Numbers
            | FormsError::Write
            | FormsError::Memory => 2,
        }
    }
}
