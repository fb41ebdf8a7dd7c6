//! What is asked of the forms of a language, and what is written.

use form_commands::{
    FormsError, Verdict, answer_lines, answer_numbers, check_files, list_forms, write_gettext,
};
use message_report::MessageFile;
use plural_fallback::Part;
use serde_json::Value;
use std::alloc::Global;
use std::io::{Read, Write};

// The rules that are asked, and the lines of numbers.
pub(crate) const RULES: &[u8] = br#"{"cardinal":{"en":{"one":"i = 1 and v = 0"}}}"#;

pub(crate) const LINES: &[u8] = b"1\n2";

const MESSAGES: &str = r#"{"en-GB":{"cardinal":{"files":{"one":"a file","other":"{} files"}}}}"#;

// A message with two wrong forms, whose source has no number, another source that is no list, and a
// pattern with two plurals, each with two wrong branches.
const WRONG_MESSAGES: &str =
    r#"{"en-GB":{"cardinal":{"files":{"one":"a","two":"b","few":"c","other":"c"}},"patterns":{"sent":"{a,plural,one{}two{}few{}other{#}}{b,plural,one{}two{}few{}other{#}}"},"source":{"files":[],"sent":5}}}"#;

// Each of its faults has a line.
const WRONG_LINES: &str = "a.json: en-GB source sent: no list of texts
a.json: en-GB files two: no number is two
a.json: en-GB files few: no number is few
a.json: en-GB pattern sent {a} two: no number is two
a.json: en-GB pattern sent {a} few: no number is few
a.json: en-GB pattern sent {b} two: no number is two
a.json: en-GB pattern sent {b} few: no number is few
messages: 2, forms: 4, faults: 7, numbers tried: 0 to 9999
";

// The calls that write an answer.
#[derive(Clone, Copy, Debug, PartialEq, Eq)]
pub(crate) enum Asked {
    List,
    Numbers,
    Lines,
    Gettext,
    Check,
    WrongCheck,
}

pub(crate) const ASKED: [Asked; 6] = [
    Asked::List,
    Asked::Numbers,
    Asked::Lines,
    Asked::Gettext,
    Asked::Check,
    Asked::WrongCheck,
];

impl Asked {
    // What is written by the rules.
    pub(crate) fn text(self) -> &'static str {
        match self {
            Asked::List => {
                "en-GB: cardinal rules of en, whole numbers below 10000\none: 1 alone\nother: 0, also 2\n"
            }
            Asked::Numbers => "one\nnumber 2: bad number\n",
            Asked::Lines => "one\nother\n",
            Asked::Gettext => "Plural-Forms: nplurals=2; plural=(n == 1 ? 0 : 1);\n",
            Asked::Check => "messages: 1, forms: 2, faults: 0, numbers tried: 0 to 9999\n",
            Asked::WrongCheck => WRONG_LINES,
        }
    }

    // What is written after it, into the notes.
    pub(crate) fn notes(self) -> &'static str {
        match self {
            Asked::List => "",
            Asked::Check | Asked::WrongCheck =>
                "plural_forms: a.json: en-GB: cardinal rules of en\n",
            Asked::Numbers | Asked::Lines | Asked::Gettext => {
                "plural_forms: en-GB: cardinal rules of en\n"
            }
        }
    }
}

// Returns what the call answers for the locale `en-GB`.
pub(crate) fn answer<R: Read, N: Read, W: Write, E: Write>(
    alloc: Global,
    asked: Asked,
    rules: &mut R,
    lines: &mut N,
    writer: &mut W,
    notes: &mut E,
) -> Result<Verdict, FormsError> {
    let (part, locale) = (Part::Cardinal, "en-GB");
    match asked {
        Asked::List => list_forms(alloc, part, locale, rules, writer),
        Asked::Numbers => answer_numbers(alloc, part, locale, &["1", "x"], rules, writer, notes),
        Asked::Lines => answer_lines(alloc, part, locale, rules, lines, writer, notes),
        Asked::Gettext => write_gettext(alloc, part, locale, rules, writer, notes),
        Asked::Check => check(alloc, MESSAGES, rules, writer, notes),
        Asked::WrongCheck => check(alloc, WRONG_MESSAGES, rules, writer, notes),
    }
}

// Returns what the check of a file of messages answers.
fn check<R: Read, W: Write, E: Write>(
    alloc: Global,
    messages: &str,
    rules: &mut R,
    writer: &mut W,
    notes: &mut E,
) -> Result<Verdict, FormsError> {
    let Ok(document) = Value::from_str(alloc, messages) else {
        return Err(FormsError::Memory);
    };
    let files = [MessageFile {
        name: "a.json",
        document: &document,
    }];
    check_files(alloc, &files, rules, writer, notes)
}
