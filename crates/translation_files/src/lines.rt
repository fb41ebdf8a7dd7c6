//! Where a message stands in its file.

ghost use Rattle.std.specs.Prelude.{◌≡◌};
ghost use Rattle.translation_files.specs.FilePlaces.{form_line, kind_name};

use message_report::Form;

/// The kind of a message: what chooses its form.
#[derive(Clone, Copy, Debug, PartialEq, Eq)]
pub enum MessageKind {
    /// A cardinal number.
    Cardinal,
    /// An ordinal number.
    Ordinal,
    /// The arguments of a pattern.
    Pattern,
}

impl MessageKind {
    /// Returns the key of the messages of this kind in a document, as `cardinal`.
    pub fn as_str(self) -> &'static str
        ensures { result.now ≡ kind_name self }
    {
        match self {
            MessageKind::Cardinal => "cardinal",
            MessageKind::Ordinal => "ordinal",
            MessageKind::Pattern => "patterns",
        }
    }
}

/// The line of a form's text, from 1 on.
#[derive(Clone, Copy, Debug)]
pub struct FormLine {
    pub form: Form,
    pub line: u64,
}

/// Where a message stands in its file.
#[derive(Debug, Drop)]
pub struct MessageLines {
    /// The line of the message, from 1 on.
    pub line: u64,
    /// The lines of the texts of its forms, where they have lines of their own.
    pub forms: Vec<FormLine>,
    /// What stands for the number in its texts, as `%d`, if that is known.
    pub placeholder: Option<String>,
}

impl MessageLines {
    /// Returns the line of a form's text, else that of the message.
    pub fn line_of(&self, form: Option<Form>) -> u64
        ensures { result ≡ form_line self.now form }
    {
        match form {
            Some(form) => self.line_of_form(form),
            None => self.line,
        }
    }

    // The line of a form's text, else that of the message.
    fn line_of_form(&self, form: Form) -> u64
        ensures { result ≡ form_line self.now (Some form) }
    {
        for it in self.forms.iter() {
            if it.form.as_str() == form.as_str() {
                return it.line;
            }
        }
        self.line
    }
}
