//! The formats in which findings are printed.

ghost use Rattle.std.specs.Prelude.{◌≡◌};
ghost use Rattle.finding_formats.specs.FindingFormats.{format_name, format_named};

/// A format in which findings are printed.
#[derive(Clone, Copy, Debug, PartialEq, Eq)]
pub enum Format {
    /// `text`: the report, as [`report_text`](message_report::report_text) returns it.
    Text,
    /// `json`: a line with a JSON object for each finding, and one with the counts.
    Json,
    /// `sarif`: a log of SARIF 2.1.0.
    Sarif,
    /// `github`: a command of a workflow of GitHub Actions for each finding.
    GitHub,
}

impl Format {
    /// Returns the format of a word: `text`, `json`, `sarif` or `github`.
    pub fn from_word(word: &str) -> Option<Format>
        ensures { result ≡ format_named word.now }
    {
        if word == "text" {
            Some(Format::Text)
        } else if word == "json" {
            Some(Format::Json)
        } else if word == "sarif" {
            Some(Format::Sarif)
        } else if word == "github" {
            Some(Format::GitHub)
        } else {
            None
        }
    }

    /// Returns its word.
    pub fn as_str(self) -> &'static str
        ensures { result.now ≡ format_name self }
    {
        match self {
            Format::Text => "text",
            Format::Json => "json",
            Format::Sarif => "sarif",
            Format::GitHub => "github",
        }
    }
}
