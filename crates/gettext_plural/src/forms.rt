//! The number of forms, and the expression for the index of a number.

ghost use Rattle.std.specs.Prelude.{◌≡◌};
ghost use Rattle.gettext_plural.specs.PluralValues.{below, index_of};
ghost use Rattle.gettext_plural.specs.PluralAnswers.{ParsesExactly};
ghost use Rattle.gettext_plural.specs.Inner.FormulaViews.{IsParsed, error_at};

use crate::error::{FaultKind, IndexError, PluralFormsError, ReadError};
use crate::expression::Expression;
use crate::header::header;
use crate::reader::read;
use std::alloc::Global;

/// How many bytes a text has at most. Real ones have less than 500.
pub const SIZE_LIMIT: usize = 1000;

/// What a `Plural-Forms` says: how many forms messages have, and by an expression of C which one a
/// number has.
#[derive(Drop)]
pub struct PluralForms {
    count: u64,
    expression: Expression,
}

impl PluralForms {
    ghost use Rattle.gettext_plural.specs.PluralViews.{forms_of, forms_read};

    /// Reads the value of the field, as `nplurals=2; plural=n != 1;`: the number behind the first
    /// `nplurals=`, and the expression behind the first `plural=`. The expression is what gettext
    /// takes: numbers up to 4294967295, `n`, `!`, the operators of C from `*` to `||`, `? :` and
    /// brackets, with spaces and tabs between them. It ends with the text, at `;` or at a line feed.
    /// What stands elsewhere isn't read.
    ///
    /// It allocates the expression. The error is the text's first fault, with the byte where it is,
    /// or out of memory.
    #[tactic(auto, using(crate::proofs::Told::too_long))]
    pub fn parse(alloc: Global, text: &[u8]) -> Result<PluralForms, PluralFormsError>
        ensures { ParsesExactly text.now (forms_read result) }
    {
        if text.len() > SIZE_LIMIT {
            return Err(PluralFormsError::Fault(FaultKind::TooLong, SIZE_LIMIT));
        }
        match parsed(alloc, text) {
            Ok(forms) => Ok(forms),
            Err(error) => Err(error_at(text, error)),
        }
    }

    /// Returns how many forms a message has: from 1 to [`FORMS_LIMIT`].
    pub fn count(&self) -> u64
        ensures { result ≡ (forms_of self.now).count }
    {
        self.count
    }

    /// Returns the index of a number's form, from 0 on. The expression is computed in 64 bits without
    /// a sign, where sums, differences and products wrap, as gettext does; `||`, `&&` and `? :` leave
    /// out the operand that they don't need. It takes no memory.
    ///
    /// The error is a division by 0, or a value that isn't below the number of forms.
    pub fn index(&self, n: u64) -> Result<u64, IndexError>
        ensures { result ≡ index_of (forms_of self.now) n }
    {
        match self.expression.value(n) {
            None => Err(IndexError::DividesByZero),
            Some(value) => below(value, self.count),
        }
    }
}

// Returns a value that is below the number of forms.
fn below(value: u64, count: u64) -> Result<u64, IndexError>
    ensures { result ≡ below count value }
{
    if value < count {
        Ok(value)
    } else {
        Err(IndexError::TooLarge(value))
    }
}

// Returns what a text says.
fn parsed(alloc: Global, text: &[u8]) -> Result<PluralForms, ReadError>
    ensures { IsParsed text.now result }
{
    let (count, behind) = header(text)?;
    let expression = read(alloc, behind)?;
    Ok(PluralForms { count, expression })
}

// The error of a reading: the place of a fault is counted from the text's first byte.
fn error_at(text: &[u8], error: ReadError) -> PluralFormsError
    ensures { result ≡ error_at text.now error }
{
    match error {
        ReadError::Fault(fault) => {
            PluralFormsError::Fault(fault.kind, text.len().saturating_sub(fault.left))
        }
        ReadError::Memory => PluralFormsError::Memory,
    }
}
