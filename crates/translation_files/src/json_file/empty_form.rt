//! Forms and messages without a text.

use crate::code::NoticeCode;
use crate::counts::Fate;
use crate::gathered::{Gathered, MessageHead};
use message_report::Form;
use plural_documents::printed_name;

// Tells that a form of a message has no text, and puts it as one of which nothing else is told.
pub(crate) fn put_empty(gathered: &mut Gathered, head: MessageHead<'_>, form: Form, line: u64) {
    let shown = printed_name(head.key);
    let name = form.as_str();
    gathered.tell(
        Some(line),
        NoticeCode::NotTranslated,
        format_args!("'{shown}', {name}: it has no text: translate it"),
    );
    let text = String::from_str(gathered.alloc, "{}");
    gathered.put_form(form, text);
    gathered.put_line(form, line);
}

// Notes that a message in a line has no text, and leaves it out.
pub(crate) fn note_empty(gathered: &mut Gathered, key: &str, line: u64) {
    let shown = printed_name(key);
    gathered.note(
        Some(line),
        NoticeCode::LeftOut,
        format_args!("'{shown}' has no text: left out"),
    );
    gathered.count(Fate::LeftOut, 1);
}
