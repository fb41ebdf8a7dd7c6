//! Reading the samples of rules (UTS 35 Part 3, Samples).

mod plain;
pub(super) mod sink;

ghost use Rattle.std.specs.Prelude.{◌≡◌, ◌≤◌, ◌∷◌, [], Some, None, Err, OnOk, false, List, ℕ, length, string_bytes, IfSome, IsTrue, MatchBool, MatchOption, MatchResult};
ghost use Rattle.plural_reference.specs.declared.error.ParseError.TheVariants.{ExpectedSampleType, ExpectedValue};
ghost use Rattle.plural_reference.specs.declared.token.Token.TheVariants.{At};
ghost use Rattle.plural_reference.specs.Lexer.{first};
ghost use Rattle.plural_reference.specs.Reading.{IsAnswer};
ghost use Rattle.plural_reference.specs.Samples.{IsExponentMark, has_exponent, sample_fault, token_text, type_fault};
ghost use Rattle.plural_reference.specs.Inner.SampleReading.SampleReader.{after_sections, run_samples, IsStored, ReadsStored, TakesText, NoDigits, NoMark, NoType, type_token, joined_list, ReadsDigits, ReadsNumber, ReadsExponent, ReadsSample, ReadsRange, ReadsSampleList, ReadsAllSamples, FailsInSample, FailsAtSample, FailsAtRange, FailsAtList};
ghost use Rattle.plural_reference.specs.Inner.SampleReading.PlainSamples.{AreLists, HasSamples};
ghost use Rattle.plural_reference.specs.Inner.Front.{BeginsAtToken};
ghost use Rattle.plural_reference.specs.Inner.Scan.{tokens_of};

use super::Parser;
use super::front::behind_spaces;
use crate::ast::{DecimalValue, Operand, SampleList, SampleRange, Samples};
use crate::error::{ParseError, ReadError};
use crate::lexer::{first_token, strip_byte};
use crate::sequence::Sequence;
use crate::token::Token;
use plain::are_plain;
use sink::{LeftOut, Sink};
use std::alloc::{AllocError, Global};

// The type of a list of samples.
#[derive(Drop)]
enum SampleType {
    Integer,
    Decimal,
}

impl<'p> Parser<'p> {
    // Reads the samples, and leaves them out: most of them by their bytes.
    pub(super) fn leave_samples_out(&mut self, alloc: Global) -> Result<(), ReadError>
        ensures { IsAnswer (λ _. HasSamples self.old) (λ e. run_samples (after_sections []) self.old ≡ Err (e, self.new)) result }
    {
        if self.is_before_plain_samples() {
            return Ok(());
        }
        self.samples::<LeftOut>(alloc)?;
        Ok(())
    }

    // Whether nothing but plain samples remains.
    fn is_before_plain_samples(&self) -> bool
        ensures { IsTrue result → AreLists self.now }
    {
        match self.behind_at() {
            Some(text) if are_plain(text) => true,
            _ => false,
        }
    }

    // The bytes behind At, if it is the next token.
    #[inline]
    #[tactic(auto, unfolding(crate::specs::Inner::Scan::tokens_from))]
    fn behind_at(&self) -> Option<&[u8]>
        ensures { IfSome result (λ text. self.now ≡ At ∷ tokens_of text.now) }
    {
        strip_byte(self.rest, b'@')
    }

    // samples = (At (Integer | Decimal) list)*
    pub(super) fn samples<S: Sink>(&mut self, alloc: Global) -> Result<Option<Samples>, ReadError>
        ensures { IsAnswer
            (λ samples. ReadsStored S.keeps ReadsAllSamples self.old samples self.new)
            (λ e. run_samples (after_sections []) self.old ≡ Err (e, self.new))
            result }
    {
        let mut samples = None;
        'lists: while self.take_if(Token::At) {
            let kind = self.sample_type()?;
            let list = self.sample_list::<S>(alloc)?;
            samples = Some(with_list(samples, kind, list));
        }
        Ok(samples)
    }

    // type = Integer | Decimal
    fn sample_type(&mut self) -> Result<SampleType, ParseError>
        ensures shorter { length self.new ≤ length self.old }
        ensures kind { MatchResult result (λ kind. self.old ≡ type_token kind ∷ self.new) (NoType self.old self.new) }
    {
        let (kind, after) = type_at(self.rest).ok_or(ParseError::ExpectedSampleType)?;
        self.rest = behind_spaces(after);
        Ok(kind)
    }

    // list = range (Comma range)* (Comma Ellipsis)?
    fn sample_list<S: Sink>(&mut self, alloc: Global) -> Result<SampleList, ReadError>
        ensures shorter { length self.new ≤ length self.old }
        ensures list { IsAnswer (λ list. ReadsStored S.keeps ReadsSampleList self.old list self.new) (FailsAtList self.old self.new) result }
    {
        let mut ranges = S::begin_list(alloc)?;
        S::push_range(&mut ranges, self.sample_range::<S>(alloc)?)?;
        'list: while self.take_if(Token::Comma) {
            if self.take_if(Token::Ellipsis) {
                return Ok(SampleList {
                    sample_ranges: Sequence(ranges),
                    ellipsis: true,
                });
            }
            S::push_range(&mut ranges, self.sample_range::<S>(alloc)?)?;
        }
        Ok(SampleList {
            sample_ranges: Sequence(ranges),
            ellipsis: false,
        })
    }

    // range = sample (Tilde sample)?
    fn sample_range<S: Sink>(&mut self, alloc: Global) -> Result<SampleRange, ReadError>
        ensures shorter { length self.new ≤ length self.old }
        ensures range { IsAnswer (λ range. ReadsStored S.keeps ReadsRange self.old range self.new) (FailsAtRange self.old self.new) result }
    {
        let lower_val = self.sample::<S>(alloc)?;
        if !self.take_if(Token::Tilde) {
            return Ok(SampleRange {
                lower_val,
                upper_val: None,
            });
        }
        let upper_val = Some(self.sample::<S>(alloc)?);
        Ok(SampleRange {
            lower_val,
            upper_val,
        })
    }

    // sample = digits (Dot digits)? ((E | C) (Number | Zero))?, and not empty
    fn sample<S: Sink>(&mut self, alloc: Global) -> Result<DecimalValue, ReadError>
        ensures shorter { length self.new ≤ length self.old }
        ensures sample { IsAnswer (λ text. ReadsStored S.keeps ReadsSample self.old text self.new) (FailsAtSample self.old self.new) result }
    {
        if !self.is_before_sample() {
            return Err(ReadError::Parse(ParseError::ExpectedValue));
        }
        let mut text = S::begin(alloc)?;
        self.number::<S>(&mut text)?;
        self.exponent::<S>(&mut text)?;
        Ok(DecimalValue(text))
    }

    // Whether the next token begins a sample.
    #[inline]
    fn is_before_sample(&self) -> bool
        ensures { MatchBool result
            (sample_fault (first self.now) ≡ None)
            (sample_fault (first self.now) ≡ Some ExpectedValue) }
    {
        match first_token(self.rest) {
            Some((token, _)) => begins_sample(&token),
            None => false,
        }
    }

    // digits (Dot digits)?
    fn number<S: Sink>(&mut self, text: &mut String) -> Result<(), AllocError>
        ensures shorter { length self.new ≤ length self.old }
        ensures number { IsStored S.keeps (string_bytes text.old) [] → OnOk result
            (ReadsStored S.keeps ReadsNumber self.old (string_bytes text.new) self.new) }
    {
        self.digits::<S>(text)?;
        if !self.take_if(Token::Dot) {
            return Ok(());
        }
        S::push_mark(text, ".")?;
        self.digits::<S>(text)?;
        Ok(())
    }

    // digits = (Number | Zero)*
    fn digits<S: Sink>(&mut self, text: &mut String) -> Result<(), AllocError>
        ensures shorter { length self.new ≤ length self.old }
        ensures digits { (before : List ℕ) → has_exponent before ≡ false → IsStored S.keeps (string_bytes text.old) before → OnOk result
            (ReadsStored S.keeps (ReadsDigits before) self.old (string_bytes text.new) self.new × NoDigits self.new) }
    {
        'digits: while let Some(number) = self.take_number() {
            S::push_number(text, number)?;
        }
        Ok(())
    }

    // ((E | C) (Number | Zero))?
    fn exponent<S: Sink>(&mut self, text: &mut String) -> Result<(), ReadError>
        ensures shorter { length self.new ≤ length self.old }
        ensures exponent { (before : List ℕ) → has_exponent before ≡ false → IsStored S.keeps (string_bytes text.old) before → IsAnswer
            (λ _. ReadsStored S.keeps (ReadsExponent before) self.old (string_bytes text.new) self.new)
            (FailsInSample before self.old self.new)
            result }
    {
        let Some(mark) = self.take_mark() else {
            return Ok(());
        };
        S::push_mark(text, mark)?;
        let Some(number) = self.take_number() else {
            return Err(ReadError::Parse(ParseError::ExpectedValue));
        };
        S::push_number(text, number)?;
        Ok(())
    }

    // Takes the next token if it begins an exponent: its text.
    #[inline]
    fn take_mark(&mut self) -> Option<&'static str>
        ensures { MatchOption result
            (NoMark self.old × (self.new ≡ self.old))
            (λ mark. TakesText IsExponentMark self.old mark.now self.new) }
    {
        let (token, after) = first_token(self.rest)?;
        let mark = mark_of(&token)?;
        self.rest = behind_spaces(after);
        Some(mark)
    }
}

// The type of samples that the first token is, and the bytes after it.
fn type_at(text: &[u8]) -> Option<(SampleType, &[u8])>
    requires { BeginsAtToken text.now }
    ensures { MatchOption result
        (type_fault (first (tokens_of text.now)) ≡ Some ExpectedSampleType)
        (λ it. tokens_of text.now ≡ type_token it.0 ∷ tokens_of it.1.now) }
{
    match first_token(text)? {
        (Token::Integer, after) => Some((SampleType::Integer, after)),
        (Token::Decimal, after) => Some((SampleType::Decimal, after)),
        _ => None,
    }
}

// Whether a token begins a sample.
#[inline]
fn begins_sample(token: &Token) -> bool
    ensures { MatchBool result
        (sample_fault (Some token.now) ≡ None)
        (sample_fault (Some token.now) ≡ Some ExpectedValue) }
{
    match token {
        Token::Number(_) | Token::Zero | Token::Dot | Token::E => true,
        Token::Operand(operand) => *operand == Operand::C,
        _ => false,
    }
}

// The text of a token that begins an exponent.
#[inline]
fn mark_of(token: &Token) -> Option<&'static str>
    ensures { MatchOption result
        (¬ (IsExponentMark token.now))
        (λ mark. IsExponentMark token.now × (token_text token.now ≡ mark.now)) }
{
    match token {
        Token::E => Some("e"),
        Token::Operand(Operand::C) => Some("c"),
        _ => None,
    }
}

// Returns the samples with this list, which replaces an earlier list of its type.
fn with_list(samples: Option<Samples>, kind: SampleType, list: SampleList) -> Samples
    ensures { Some result ≡ joined_list samples (record { type = type_token kind; list = list }) }
{
    let Samples { integer, decimal } = samples.unwrap_or(Samples {
        integer: None,
        decimal: None,
    });
    match kind {
        SampleType::Integer => Samples {
            integer: Some(list),
            decimal,
        },
        SampleType::Decimal => Samples {
            integer,
            decimal: Some(list),
        },
    }
}
