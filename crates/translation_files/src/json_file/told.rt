//! What tools/translation-input tells of a file that isn't read here, as JSON.

ghost use Rattle.std.specs.Prelude.{◌≡◌, [], IfSome, false, is_some, option_and_then};
ghost use Rattle.serde_json.specs.Find.{as_array, get};
ghost use Rattle.serde_json.specs.View.{view};
ghost use Rattle.translation_files.specs.ReadFiles.{tells_notices};

use crate::code::NoticeCode;
use crate::counts::Fate;
use crate::gathered::{Gathered, MessageHead};
use crate::json_file::android_message::{AndroidForm, AndroidText, add_android_message, push_form};
use crate::json_file::key_tree::ROOT;
use crate::json_file::pattern_message::add_pattern_message;
use crate::json_file::texts::JsonText;
use crate::lines::MessageKind;
use crate::notice::FileNotice;
use crate::pushed::push;
use icu_plurals::PluralCategory;
use message_report::Severity;
use serde_json::{Map, Value};
use std::alloc::{AllocError, Global};

// A file that is told.
#[derive(Clone, Copy)]
pub(crate) struct ToldFile<'v> {
    pub(crate) name: &'v str,
    pub(crate) locale: Option<&'v str>,
    pub(crate) messages: &'v [Value],
    pub(crate) notices: &'v [Value],
}

// The file that a document tells, if it does: it names the file.
pub(crate) fn told_file(value: &Value) -> Option<ToldFile<'_>>
    ensures { IfSome result (λ told. tells_notices (view value.now) ≡ false → told.notices.now ≡ []) }
{
    let name = text_under("@@file", value)?;
    match value.get("messages")? {
        Value::Array(messages) => Some(ToldFile {
            name,
            locale: text_under("@@locale", value),
            messages: messages.as_slice(),
            notices: notices_of(value),
        }),
        _ => None,
    }
}

// The notices of a document, if they are an array.
fn notices_of(value: &Value) -> &[Value]
    ensures { tells_notices (view value.now) ≡ false → result.now ≡ [] }
{
    match array_under("notices", value) {
        Some(notices) => notices.as_slice(),
        None => &[],
    }
}

// The array under a key.
fn array_under<'v>(key: &str, value: &'v Value) -> Option<&'v Vec<Value>>
    ensures { is_some result ≡ is_some (option_and_then as_array (get key.now (view value.now))) }
{
    value.get(key)?.as_array()
}

// A gettext catalog that is told.
#[derive(Clone, Copy)]
pub(crate) struct ToldCatalog<'v> {
    pub(crate) name: &'v str,
    pub(crate) text: &'v str,
}

// The catalog that a document tells, if it does: it names the file, and has its text and no messages.
pub(crate) fn told_catalog(value: &Value) -> Option<ToldCatalog<'_>> {
    if told_file(value).is_some() {
        return None;
    }
    Some(ToldCatalog {
        name: text_under("@@file", value)?,
        text: text_under("catalog", value)?,
    })
}

// A message that is told: its forms, each with a text, or a pattern.
#[derive(Clone, Copy)]
enum ToldMessage<'v> {
    Forms(MessageHead<'v>, &'v Map<String, Value>),
    Pattern(&'v str, JsonText<'v>),
}

// Adds the messages that are told.
pub(crate) fn add_told(gathered: &mut Gathered, messages: &[Value]) {
    for message in messages {
        match told_message(message) {
            Some(ToldMessage::Forms(head, forms)) => add_message(gathered, head, forms),
            Some(ToldMessage::Pattern(key, text)) => {
                add_pattern_message(gathered, key, text, None)
            }
            None => tell_untold(gathered, message),
        }
    }
}

// Tells that a message isn't of the shape.
fn tell_untold(gathered: &mut Gathered, message: &Value) {
    let text = "a message isn't told as tools/translation-input does: make the file anew";
    gathered.leave_out(1, line_of(message), NoticeCode::NotRead, text);
}

// The line of a thing that is told.
fn line_of(told: &Value) -> Option<u64> {
    told.get("line")?.as_u64()
}

// A message, if it is of the shape.
fn told_message(message: &Value) -> Option<ToldMessage<'_>> {
    let head = head_of(message)?;
    if head.kind == MessageKind::Pattern {
        let text = JsonText {
            place: ROOT,
            text: text_under("text", message)?,
            line: head.line,
        };
        return Some(ToldMessage::Pattern(head.key, text));
    }
    match message.get("forms")? {
        Value::Object(forms) if are_texts(forms) => Some(ToldMessage::Forms(head, forms)),
        _ => None,
    }
}

// What a message is known by.
fn head_of(message: &Value) -> Option<MessageHead<'_>> {
    Some(MessageHead {
        kind: kind_of(message)?,
        key: text_under("key", message)?,
        line: line_of(message)?,
    })
}

// Whether each form has a text.
fn are_texts(forms: &Map<String, Value>) -> bool {
    for (name, form) in forms.iter() {
        if text_of(name.as_str(), form).is_none() {
            return false;
        }
    }
    true
}

// Adds a message.
fn add_message(gathered: &mut Gathered, head: MessageHead<'_>, told: &Map<String, Value>) {
    let mut forms = Vec::new(gathered.alloc);
    let pushed = push_forms(gathered.alloc, &mut forms, told);
    gathered.keep(pushed);
    add_android_message(gathered, head, &forms);
    drop(forms);
}

// Appends the forms of a message.
fn push_forms<'v>(
    alloc: Global,
    forms: &mut Vec<AndroidForm<'v>>,
    told: &'v Map<String, Value>,
) -> Result<(), AllocError> {
    for (name, form) in told.iter() {
        if let Some(text) = text_of(name.as_str(), form) {
            push_form(alloc, forms, text)?;
        }
    }
    Ok(())
}

// The text under a key.
fn text_under<'v>(key: &str, value: &'v Value) -> Option<&'v str> {
    value.get(key)?.as_str()
}

// The kind of a message.
fn kind_of(message: &Value) -> Option<MessageKind> {
    match text_under("type", message)? {
        "cardinal" => Some(MessageKind::Cardinal),
        "ordinal" => Some(MessageKind::Ordinal),
        "patterns" => Some(MessageKind::Pattern),
        _ => None,
    }
}

// The text of a form.
fn text_of<'v>(name: &str, form: &'v Value) -> Option<AndroidText<'v>> {
    Some(AndroidText {
        category: PluralCategory::get_for_cldr_string(name)?,
        text: text_under("text", form)?,
        line: line_of(form)?,
    })
}

// The notices of an array. The messages that they leave out are counted.
pub(crate) fn add_notices(gathered: &mut Gathered, notices: &[Value]) -> Vec<FileNotice>
    ensures { notices.now ≡ [] → result.items ≡ [] }
{
    if notices.is_empty() {
        return Vec::new(gathered.alloc);
    }
    let mut told = Vec::new(gathered.alloc);
    for notice in notices {
        add_notice(gathered, &mut told, notice);
    }
    told
}

// Adds a notice, and counts the messages that it leaves out.
fn add_notice(gathered: &mut Gathered, told: &mut Vec<FileNotice>, notice: &Value) {
    let text = text_under("text", notice).unwrap_or("something is told without a text");
    match String::from_str(gathered.alloc, text) {
        Ok(text) => {
            let line = line_of(notice);
            let severity = severity_of(notice);
            let code = code_named(text_under("code", notice).unwrap_or(""));
            let pushed = push(
                told,
                FileNotice {
                    line,
                    severity,
                    code,
                    text,
                },
            );
            gathered.keep(pushed);
        }
        Err(_) => gathered.fail(),
    }
    if let Some(count) = notice.get("left_out") {
        gathered.count(Fate::LeftOut, count.as_u64().unwrap_or(0));
    }
}

// How grave a notice is.
fn severity_of(notice: &Value) -> Severity {
    match text_under("severity", notice) {
        Some("note") => Severity::Note,
        _ => Severity::Error,
    }
}

// The code of a word: those that the tool tells.
fn code_named(word: &str) -> NoticeCode {
    match word {
        "syntax" => NoticeCode::Syntax,
        "charset" => NoticeCode::Charset,
        "language" => NoticeCode::Language,
        "twice" => NoticeCode::Twice,
        "left-out" => NoticeCode::LeftOut,
        _ => NoticeCode::NotRead,
    }
}
