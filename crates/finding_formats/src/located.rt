//! What is told of a file, with the line where it is.

ghost use Rattle.std.specs.Prelude.{◌≡◌};
ghost use Rattle.finding_formats.specs.LocatedFindings.{known_line};

use crate::told::Told;

/// What is told of a file, with the line where it is.
#[derive(Clone, Copy, Debug)]
pub struct Located<'a> {
    /// The line, if it is known. The first one is 1; 0 is none.
    pub line: Option<u64>,
    /// What says the number in the file's texts, if that is known: `%d`, `{{count}}`.
    pub placeholder: Option<&'a str>,
    /// What is told.
    pub told: Told<'a>,
}

impl Located<'_> {
    /// Returns the line, if it is known and isn't 0.
    pub fn known_line(&self) -> Option<u64>
        ensures { result ≡ known_line self.now.line }
    {
        let line = self.line?;
        if line == 0 { None } else { Some(line) }
    }
}
