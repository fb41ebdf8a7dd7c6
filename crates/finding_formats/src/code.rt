//! The codes of causes.

ghost use Rattle.std.specs.Prelude.{◌≡◌};
ghost use Rattle.finding_formats.specs.FindingCodes.{code_meaning, code_name, code_of, code_of_branch, code_of_form, code_place};

use message_report::{BranchFault, Cause, FormFault};

/// What is wrong in a finding, in a word that stays the same from version to version.
#[derive(Clone, Copy, Debug, PartialEq, Eq)]
pub enum Code {
    /// `no-object`: a document or a part of it isn't an object.
    NoObject,
    /// `not-a-part`: a key of a locale names no part.
    NotAPart,
    /// `no-text-list`: the arguments of a source text aren't a list of texts.
    NoTextList,
    /// `no-rules`: a locale has no rules of the type.
    NoRules,
    /// `missing`: the language has a category without a form or a branch.
    Missing,
    /// `unused`: the language hasn't the category of a form or a branch.
    Unused,
    /// `no-number`: a form or a branch of more than one number doesn't say the number.
    NoNumber,
    /// `no-text`: a form or a pattern isn't a text.
    NoText,
    /// `not-a-form`: a key of a message names no form.
    NotAForm,
    /// `no-pattern`: a text isn't a pattern.
    NoPattern,
    /// `not-a-category`: the keyword of a branch names no category.
    NotACategory,
    /// `stands-twice`: the selector of a branch stands before it.
    StandsTwice,
    /// `more`: further faults are only counted.
    More,
    /// `missing-rare`: the same as `missing`, but no whole number below 10000 would choose the form or
    /// the branch.
    MissingRare,
}

// All codes, in the order of the list of rules.
pub(crate) const ALL_CODES: &[Code] = &[
    Code::NoObject,
    Code::NotAPart,
    Code::NoTextList,
    Code::NoRules,
    Code::Missing,
    Code::Unused,
    Code::NoNumber,
    Code::NoText,
    Code::NotAForm,
    Code::NoPattern,
    Code::NotACategory,
    Code::StandsTwice,
    Code::More,
    Code::MissingRare,
];

impl Code {
    /// Returns the code of a cause. A form and a branch share those of the same fault.
    pub fn of(cause: Cause) -> Code
        ensures { result ≡ code_of cause }
    {
        match cause {
            Cause::NoObject => Code::NoObject,
            Cause::NotAPart => Code::NotAPart,
            Cause::NoTextList => Code::NoTextList,
            Cause::NoRules(_) => Code::NoRules,
            Cause::Form(fault) => of_form(fault),
            Cause::NotAForm => Code::NotAForm,
            Cause::NoText => Code::NoText,
            Cause::NoPattern(..) => Code::NoPattern,
            Cause::Branch(fault) => of_branch(fault),
            Cause::More(_) => Code::More,
        }
    }

    /// Returns its word.
    pub fn as_str(self) -> &'static str
        ensures { result.now ≡ code_name self }
    {
        match self {
            Code::NoObject => "no-object",
            Code::NotAPart => "not-a-part",
            Code::NoTextList => "no-text-list",
            Code::NoRules => "no-rules",
            Code::Missing => "missing",
            Code::Unused => "unused",
            Code::NoNumber => "no-number",
            Code::NoText => "no-text",
            Code::NotAForm => "not-a-form",
            Code::NoPattern => "no-pattern",
            Code::NotACategory => "not-a-category",
            Code::StandsTwice => "stands-twice",
            Code::More => "more",
            Code::MissingRare => "missing-rare",
        }
    }

    // What it means, in a sentence.
    pub(crate) fn meaning(self) -> &'static str
        ensures { result.now ≡ code_meaning self }
    {
        match self {
            Code::NoObject => "A document or a part of it isn't an object.",
            Code::NotAPart => "A key of a locale names no part.",
            Code::NoTextList => "The arguments of a source text aren't a list of texts.",
            Code::NoRules => "A locale has no plural rules of the type.",
            Code::Missing => "The language has a category without a form or a branch.",
            Code::Unused => "The language hasn't the category of a form or a branch.",
            Code::NoNumber => "A form or a branch of more than one number doesn't say the number.",
            Code::NoText => "A form or a pattern isn't a text.",
            Code::NotAForm => "A key of a message names no form.",
            Code::NoPattern => "A text isn't a pattern.",
            Code::NotACategory => "The keyword of a branch names no plural category.",
            Code::StandsTwice => "The selector of a branch stands before it.",
            Code::More => "Further faults of a message or a pattern are only counted.",
            Code::MissingRare =>
                "The language has a category without a form or a branch, but no whole number below 10000 would choose it.",
        }
    }

    // Its place in the list of rules.
    pub(crate) fn place(self) -> u8
        ensures { result ≡ code_place self }
    {
        match self {
            Code::NoObject => 0,
            Code::NotAPart => 1,
            Code::NoTextList => 2,
            Code::NoRules => 3,
            Code::Missing => 4,
            Code::Unused => 5,
            Code::NoNumber => 6,
            Code::NoText => 7,
            Code::NotAForm => 8,
            Code::NoPattern => 9,
            Code::NotACategory => 10,
            Code::StandsTwice => 11,
            Code::More => 12,
            Code::MissingRare => 13,
        }
    }
}

// The code of a form's fault.
fn of_form(fault: FormFault) -> Code
    ensures { result ≡ code_of_form fault }
{
    match fault {
        FormFault::NoText => Code::NoText,
        FormFault::Unused(_) => Code::Unused,
        FormFault::NoNumber(..) => Code::NoNumber,
        FormFault::Missing(..) => Code::Missing,
        FormFault::MissingRare(..) => Code::MissingRare,
    }
}

// The code of a branch's fault.
fn of_branch(fault: BranchFault) -> Code
    ensures { result ≡ code_of_branch fault }
{
    match fault {
        BranchFault::NoCategory => Code::NotACategory,
        BranchFault::Twice => Code::StandsTwice,
        BranchFault::Unused(_) => Code::Unused,
        BranchFault::NoHash(..) => Code::NoNumber,
        BranchFault::Missing(..) => Code::Missing,
        BranchFault::MissingRare(..) => Code::MissingRare,
    }
}
