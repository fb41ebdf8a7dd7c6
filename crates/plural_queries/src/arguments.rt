//! The words of the command line.

ghost use Rattle.std.specs.Prelude.{◌≡◌, ◌⊎◌, IfErr};
ghost use Rattle.plural_queries.specs.declared.error.RunError.TheVariants.{Memory, Usage};

use crate::error::RunError;
use std::alloc::Global;
use std::env;
use std::env::FillError;
use std::io::ErrorKind;
use std::rt::Env;

// The arguments after the first one.
#[derive(Drop)]
struct AfterName<'a, E> {
    all: &'a E,
}

impl<'a, E: Env> Env for AfterName<'a, E> {
    fn arg(&self, i: usize, buf: &mut [u8]) -> Result<usize, FillError> {
        match i.checked_add(1) {
            Some(place) => self.all.arg(place, buf),
            None => Err(FillError::NotPresent),
        }
    }

    fn var(&self, name: &str, buf: &mut [u8]) -> Result<usize, FillError> {
        self.all.var(name, buf)
    }

    fn var_at(&self, i: usize, buf: &mut [u8]) -> Result<usize, FillError> {
        self.all.var_at(i, buf)
    }
}

/// Returns the words after the program's name. The name isn't read: a path may be any bytes.
///
/// It allocates. The error is [`RunError::Usage`] if a word isn't UTF-8, since no command has such
/// a word, and [`RunError::Memory`] if memory ran out.
pub fn arguments<E: Env>(alloc: Global, all: &E) -> Result<Vec<String>, RunError>
    ensures errors { IfErr result (λ fault. (fault ≡ Usage) ⊎ (fault ≡ Memory)) }
{
    match env::args(&(AfterName { all }, alloc)) {
        Ok(found) => match found.collect::<Vec<String>>(alloc) {
            Ok(words) => Ok(words),
            Err(_) => Err(RunError::Memory),
        },
        Err(error) if error.kind() == ErrorKind::OutOfMemory => Err(RunError::Memory),
        Err(_) => Err(RunError::Usage),
    }
}
