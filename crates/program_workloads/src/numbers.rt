//! Categories of numbers in bulk.

use crate::digest::Digest;
use crate::documents::Documents;
use crate::languages::{LANGUAGES, Language, rules_of};
use crate::random::Source;
use crate::samples::{numbers, one_number};
use anyhow::{Result, bail};
use form_commands::answer_lines;
use icu_plurals::{DecimalError, PluralCategory, PluralOperands};
use std::alloc::Global;

// How many lines are answered, how many other numbers are drawn from, and how many are asked for in a loop.
const LINES: u64 = 50_000;

const DRAWN: u64 = 8_192;

const ASKED: u64 = 20_000;

// Answers lines, as for a log or a table.
fn lines(
    alloc: Global,
    source: &mut Source,
    documents: &Documents,
    language: Language,
    drawn: &[String],
    digest: &mut Digest,
) -> Result<()> {
    let mut text = String::new(alloc);
    for _ in 0..source.some_of(LINES) {
        text.push_str(one_number(source, drawn))?;
        text.push_str("\n")?;
    }
    let (mut written, mut notes) = (Vec::new(alloc), Vec::new(alloc));
    let mut rules = documents.text.as_slice();
    let mut entered = text.as_str().as_bytes();
    let answer = answer_lines(
        alloc,
        language.part,
        language.locale,
        &mut rules,
        &mut entered,
        &mut written,
        &mut notes,
    );
    let Ok(verdict) = answer else {
        bail!("no answer");
    };
    digest.take_number(u64::from(verdict.status()));
    digest.take(written.as_slice());
    digest.take(notes.as_slice());
    Ok(())
}

// A category as a number.
fn number_of(category: PluralCategory) -> u64 {
    u64::from(category as u8)
}

// Asks for texts and integers in a loop, as a formatter.
fn inner_loop(
    alloc: Global,
    source: &mut Source,
    documents: &Documents,
    language: Language,
    drawn: &[String],
    digest: &mut Digest,
) -> Result<()> {
    let rules = rules_of(alloc, documents, language)?;
    let mut sum = 0u64;
    for _ in 0..source.some_of(ASKED) {
        let category = match rules.category_for_text(alloc, one_number(source, drawn)) {
            Ok(category) => category,
            Err(DecimalError::Memory) => bail!("out of memory"),
            Err(_) => bail!("no number"),
        };
        sum = sum.wrapping_mul(7).wrapping_add(number_of(category));
        let operands = PluralOperands::from(source.below(1_000_000));
        sum = sum
            .wrapping_mul(7)
            .wrapping_add(number_of(rules.category_for(operands)));
    }
    digest.take_number(sum);
    Ok(())
}

pub(crate) fn numbers_round(
    alloc: Global,
    source: &mut Source,
    documents: &Documents,
    digest: &mut Digest,
) -> Result<()> {
    let drawn = numbers(alloc, source, DRAWN)?;
    for language in LANGUAGES {
        lines(alloc, source, documents, language, drawn.as_slice(), digest)?;
        inner_loop(alloc, source, documents, language, drawn.as_slice(), digest)?;
    }
    Ok(())
}
