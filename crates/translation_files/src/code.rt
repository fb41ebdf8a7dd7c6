//! The codes of notices.

ghost use Rattle.std.specs.Prelude.{◌≡◌};
ghost use Rattle.translation_files.specs.NoticeSeverities.{notice_code_name};

/// What is told of a file, in a word that stays the same from version to version.
#[derive(Clone, Copy, Debug, PartialEq, Eq)]
pub enum NoticeCode {
    /// `not-read`: the file is none that is read.
    NotRead,
    /// `charset`: the file isn't UTF-8.
    Charset,
    /// `syntax`: a line can't be read.
    Syntax,
    /// `header`: a catalog has no header.
    Header,
    /// `language`: the language of the file isn't known, or has no rules.
    Language,
    /// `taken-as`: the file is taken as one of another locale than it says.
    TakenAs,
    /// `plural-forms`: the `Plural-Forms` of a catalog can't be used.
    PluralForms,
    /// `rules-differ`: for some numbers the catalog's `Plural-Forms` has another form than the rules.
    RulesDiffer,
    /// `indices`: a message has other indices than its catalog.
    Indices,
    /// `not-translated`: a form of a message has no text.
    NotTranslated,
    /// `arguments`: a form has other arguments than its source.
    Arguments,
    /// `no-number`: a form of several numbers lacks the number.
    NoNumber,
    /// `number-unclear`: which argument is the number isn't clear.
    NumberUnclear,
    /// `format-unknown`: the format of a message isn't read.
    FormatUnknown,
    /// `too-many`: a text has more arguments, or the keys of a file more bytes, than are read.
    TooMany,
    /// `twice`: a message or a key stands twice.
    Twice,
    /// `left-out`: messages aren't checked, since they need no check.
    LeftOut,
    /// `no-messages`: the file has no messages with plural forms.
    NoMessages,
}

impl NoticeCode {
    /// Returns the word of the code.
    pub fn as_str(self) -> &'static str
        ensures { result.now ≡ notice_code_name self }
    {
        match self {
            NoticeCode::NotRead => "not-read",
            NoticeCode::Charset => "charset",
            NoticeCode::Syntax => "syntax",
            NoticeCode::Header => "header",
            NoticeCode::Language => "language",
            NoticeCode::TakenAs => "taken-as",
            NoticeCode::PluralForms => "plural-forms",
            NoticeCode::RulesDiffer => "rules-differ",
            NoticeCode::Indices => "indices",
            NoticeCode::NotTranslated => "not-translated",
            NoticeCode::Arguments => "arguments",
            NoticeCode::NoNumber => "no-number",
            NoticeCode::NumberUnclear => "number-unclear",
            NoticeCode::FormatUnknown => "format-unknown",
            NoticeCode::TooMany => "too-many",
            NoticeCode::Twice => "twice",
            NoticeCode::LeftOut => "left-out",
            NoticeCode::NoMessages => "no-messages",
        }
    }
}
