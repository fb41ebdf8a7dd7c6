//! The formats, and their flags.

ghost use Rattle.std.specs.Prelude.{◌≡◌, ◌↔◌, Some, None, IfSome, IfNone};
ghost use Rattle.format_arguments.specs.declared.format.Format.{Format};
ghost use Rattle.format_arguments.specs.DirectiveTables.{flag_of};

/// A format of texts with arguments, by gettext's flag.
#[derive(Clone, Copy, Debug, PartialEq, Eq)]
pub enum Format {
    /// `c-format`: C's `printf`, with gettext's `<PRIu64>`.
    C,
    /// `objc-format`: the same with `%@`.
    ObjectiveC,
    /// `python-format`: Python's `%`, as `%(name)s`.
    Python,
    /// `javascript-format`: as in Node's `util.format`, with places.
    JavaScript,
    /// `boost-format`: Boost.Format, as `%1%`.
    Boost,
    /// `qt-format`: `QString::arg`, as `%1`.
    Qt,
    /// `qt-plural-format`: the same with `%n`.
    QtPlural,
    /// `kde-format`: KDE's `%1`.
    Kde,
    /// `python-brace-format`: Python's `str.format`, as `{name}`.
    PythonBrace,
    /// `perl-brace-format`: Perl's Locale::TextDomain, as `{name}`.
    PerlBrace,
    /// `java-format`: Java's `MessageFormat`, as `{0}`.
    Java,
}

// All formats.
const FORMATS: [Format; 11] = [
    Format::C,
    Format::ObjectiveC,
    Format::Python,
    Format::JavaScript,
    Format::Boost,
    Format::Qt,
    Format::QtPlural,
    Format::Kde,
    Format::PythonBrace,
    Format::PerlBrace,
    Format::Java,
];

impl Format {
    /// The format that a flag names, as `c-format`.
    pub fn from_flag(flag: &[u8]) -> Option<Format>
        ensures named { IfSome result (λ f. flag.now ≡ flag_of f) }
        ensures unnamed { IfNone result ((f : Format) → ¬ (flag.now ≡ flag_of f)) }
    {
        for format in FORMATS {
            if format.flag() == flag {
                return Some(format);
            }
        }
        None
    }

    /// Its flag.
    pub fn flag(self) -> &'static [u8]
        ensures { result.now ≡ flag_of self }
    {
        match self {
            Format::C => b"c-format",
            Format::ObjectiveC => b"objc-format",
            Format::Python => b"python-format",
            Format::JavaScript => b"javascript-format",
            Format::Boost => b"boost-format",
            Format::Qt => b"qt-format",
            Format::QtPlural => b"qt-plural-format",
            Format::Kde => b"kde-format",
            Format::PythonBrace => b"python-brace-format",
            Format::PerlBrace => b"perl-brace-format",
            Format::Java => b"java-format",
        }
    }
}
