//! The codes of notes.

ghost use Rattle.std.specs.Prelude.{◌≡◌};
ghost use Rattle.document_formats.specs.NoteCodes.{code_of_cause, note_code_meaning, note_code_name, note_code_of, note_code_place};
ghost use Rattle.document_notes.specs.DocumentNotes.{note_view};

use document_notes::DocumentNote;
use rule_notes::Cause;

/// What is noted, in a word that stays the same from version to version.
#[derive(Clone, Copy, Debug, PartialEq, Eq)]
pub enum NoteCode {
    /// `repeated-key`: a key stands more than once in an object.
    RepeatedKey,
    /// `upside-down`: a range of a rule is upside down.
    UpsideDown,
    /// `never-true`: a relation of a rule is never true.
    NeverTrue,
    /// `same-condition`: a rule has the condition of an earlier one.
    SameCondition,
    /// `too-late`: earlier rules have all numbers of a rule.
    TooLate,
}

// All codes, in the order of the list of rules.
pub(crate) const ALL_NOTE_CODES: &[NoteCode] = &[
    NoteCode::RepeatedKey,
    NoteCode::UpsideDown,
    NoteCode::NeverTrue,
    NoteCode::SameCondition,
    NoteCode::TooLate,
];

impl NoteCode {
    /// Returns the code of a note.
    pub fn of(note: &DocumentNote<'_>) -> NoteCode
        ensures { result ≡ note_code_of (note_view note.now) }
    {
        match note {
            DocumentNote::Rule(_, note) => of_cause(&note.cause),
            DocumentNote::Key(_) => NoteCode::RepeatedKey,
        }
    }

    /// Returns its word.
    pub fn as_str(self) -> &'static str
        ensures { result.now ≡ note_code_name self }
    {
        match self {
            NoteCode::RepeatedKey => "repeated-key",
            NoteCode::UpsideDown => "upside-down",
            NoteCode::NeverTrue => "never-true",
            NoteCode::SameCondition => "same-condition",
            NoteCode::TooLate => "too-late",
        }
    }

    // What it means, in a sentence.
    pub(crate) fn meaning(self) -> &'static str
        ensures { result.now ≡ note_code_meaning self }
    {
        match self {
            NoteCode::RepeatedKey => "A key stands more than once in an object.",
            NoteCode::UpsideDown => "A range of a rule is upside down.",
            NoteCode::NeverTrue => "A relation of a rule is never true.",
            NoteCode::SameCondition => "A rule has the condition of an earlier one.",
            NoteCode::TooLate => "Earlier rules have all numbers of a rule.",
        }
    }

    // Its place in the list of rules, where the codes of findings come first.
    pub(crate) fn place(self) -> u8
        ensures { result ≡ note_code_place self }
    {
        match self {
            NoteCode::RepeatedKey => 21,
            NoteCode::UpsideDown => 22,
            NoteCode::NeverTrue => 23,
            NoteCode::SameCondition => 24,
            NoteCode::TooLate => 25,
        }
    }
}

// The code of what is noted of a rule.
fn of_cause(cause: &Cause) -> NoteCode
    ensures { result ≡ code_of_cause cause.now }
{
    match cause {
        Cause::UpsideDown(..) => NoteCode::UpsideDown,
        Cause::Empty(_) => NoteCode::NeverTrue,
        Cause::Alike(_) => NoteCode::SameCondition,
        Cause::Taken => NoteCode::TooLate,
    }
}
