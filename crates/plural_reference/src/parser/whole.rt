//! Whether a text is a rule from its first byte to its last.

ghost use Rattle.std.specs.Prelude.{◌≡◌, ◌↔◌, ◌≢◌, [], IfOk, IsTrue};
ghost use Rattle.plural_reference.specs.Reading.{IsAnswer};
ghost use Rattle.plural_reference.specs.Samples.{IsRule, TextIsRule};

use super::Parser;
use super::samples::sink::LeftOut;
use crate::error::ReadError;
use std::alloc::{AllocError, Global};

/// Returns whether the text is a rule as a whole: a condition or none, samples or none after it,
/// and spaces (UTS 35 Part 3, Plural Rules Syntax and Samples).
///
/// [`parse`](crate::parse) and all that read rules leave what stands after the longest beginning
/// that is a rule: of `n = 1 x` the condition `n = 1` is read, and this returns `false`. So it does
/// for a text that `parse` refuses. A condition is allocated; the error is out of memory.
pub fn is_read_whole(alloc: Global, text: &[u8]) -> Result<bool, AllocError>
    ensures { IfOk result (λ whole. IsTrue whole ↔ TextIsRule text.now) }
{
    let mut parser = Parser::new(text);
    match parser.takes_a_rule(alloc) {
        Ok(whole) => Ok(whole),
        Err(ReadError::Parse(_)) => Ok(false),
        Err(ReadError::Memory) => Err(AllocError),
    }
}

impl<'p> Parser<'p> {
    // Takes the tokens of a rule, and returns whether that was all.
    fn takes_a_rule(&mut self, alloc: Global) -> Result<bool, ReadError>
        ensures { IsAnswer (λ whole. IsTrue whole ↔ IsRule self.old) (λ kind. ¬ (IsRule self.old)) result }
    {
        self.condition(alloc)?;
        self.samples::<LeftOut>(alloc)?;
        Ok(self.is_at_end())
    }

    // Whether no token is left.
    #[tactic(auto, using(crate::proofs::tokens::FirstBytes::no_tokens_left, crate::proofs::tokens::FirstBytes::no_bytes_left))]
    fn is_at_end(&self) -> bool
        ensures { IsTrue result ↔ (self.now ≡ []) }
    {
        self.rest.is_empty()
    }
}
