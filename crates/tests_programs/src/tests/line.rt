//! Command lines.

use std::env::FillError;
use std::rt::Env;

// The arguments of a program, which may be any bytes.
#[derive(Drop)]
pub(crate) struct Line<'a> {
    pub(crate) arguments: &'a [&'a [u8]],
}

impl<'a> Env for Line<'a> {
    fn arg(&self, i: usize, buf: &mut [u8]) -> Result<usize, FillError> {
        let Some(argument) = self.arguments.get(i) else {
            return Err(FillError::NotPresent);
        };
        let Some(front) = buf.get_mut(..argument.len()) else {
            return Err(FillError::TooLong);
        };
        front.copy_from_slice(argument);
        Ok(argument.len())
    }

    fn var(&self, _name: &str, _buf: &mut [u8]) -> Result<usize, FillError> {
        Err(FillError::NotPresent)
    }

    fn var_at(&self, _i: usize, _buf: &mut [u8]) -> Result<usize, FillError> {
        Err(FillError::NotPresent)
    }
}
