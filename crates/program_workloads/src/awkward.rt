//! Documents that cost the most for their size, as a stranger may send them.

use crate::digest::Digest;
use crate::names::push_name;
use crate::random::Source;
use crate::rules::check;
use anyhow::Result;
use std::alloc::{AllocError, Global};

// How many locales there are with many values by many samples, how many parents, and how many names.
const COMPARED: u64 = 3;

const PARENTS: u64 = 9_000;

const NAMES: u64 = 900;

// Pieces of which a text of rules, of at most 1024 bytes, has so many.
#[derive(Clone, Copy)]
struct Pieces {
    pieces: &'static [&'static str],
    count: u64,
}

// Values of rules, and samples of numbers that have none of them: of `many`, from the beginning of its text on, and of `other`.
#[derive(Clone, Copy)]
struct Compared {
    values: Pieces,
    many: &'static str,
    samples_of_many: Pieces,
    samples_of_other: Pieces,
}

// Values below 10.
const SHORT: Compared = Compared {
    values: Pieces {
        pieces: &["1", "2", "3", "4", "5", "6", "7", "8", "9"],
        count: 500,
    },
    many: "n=10..99@integer ",
    samples_of_many: Pieces {
        pieces: &["10~99", "11~99", "10~98"],
        count: 160,
    },
    samples_of_other: Pieces {
        pieces: &["100~199", "200~299", "300~398"],
        count: 120,
    },
};

// Values of three digits.
const LONG: Compared = Compared {
    values: Pieces {
        pieces: &[
            "101", "122", "134", "215", "341", "356", "468", "512", "777",
        ],
        count: 250,
    },
    many: "n=1000..9999@integer ",
    samples_of_many: Pieces {
        pieces: &["1000~1099", "2300~2399", "4017~4099", "8000~8085"],
        count: 80,
    },
    samples_of_other: Pieces {
        pieces: &["10000~10099", "20300~20388", "37000~37099"],
        count: 80,
    },
};

// Appends as many pieces, with commas between them.
fn push_pieces(text: &mut String, source: &mut Source, from: Pieces) -> Result<(), AllocError> {
    let mut separator = "";
    for _ in 0..source.some_of(from.count) {
        text.push_str(separator)?;
        text.push_str(source.one_of(from.pieces))?;
        separator = ",";
    }
    Ok(())
}

// Appends the texts of a locale whose samples are compared with all values of four rules.
fn push_compared(
    text: &mut String,
    source: &mut Source,
    compared: &Compared,
) -> Result<(), AllocError> {
    for form in ["zero", "one", "two", "few"] {
        text.push_str("\"")?;
        text.push_str(form)?;
        text.push_str("\":\"n=")?;
        push_pieces(text, source, compared.values)?;
        text.push_str("\",")?;
    }
    text.push_str("\"many\":\"")?;
    text.push_str(compared.many)?;
    push_pieces(text, source, compared.samples_of_many)?;
    text.push_str("\",\"other\":\"@integer ")?;
    push_pieces(text, source, compared.samples_of_other)?;
    text.push_str("\"")
}

// A document of many values by many samples.
fn many_compared(alloc: Global, source: &mut Source) -> Result<String, AllocError> {
    let mut text = String::from_str(alloc, "{\"cardinal\":{")?;
    for number in 0..source.some_of(COMPARED) {
        text.push_str(if number == 0 { "\"" } else { ",\"" })?;
        push_name(&mut text, source, number)?;
        text.push_str("\":{")?;
        let compared = if number % 3 == 2 { &LONG } else { &SHORT };
        push_compared(&mut text, source, compared)?;
        text.push_str("}")?;
    }
    text.push_str("}}")?;
    Ok(text)
}

// A document of parents above a locale of 128 subtags.
fn parents(alloc: Global, source: &mut Source) -> Result<String, AllocError> {
    let mut text = String::from_str(alloc, "{\"parents\":{\"b\":\"x")?;
    for _ in 0..127 {
        text.push_str("-")?;
        text.push_str(source.one_of(&["x", "y", "z"]))?;
    }
    text.push_str("\"")?;
    for number in 0..source.some_of(PARENTS) {
        text.push_str(",\"")?;
        push_name(&mut text, source, number)?;
        text.push_str("\":\"b\"")?;
    }
    text.push_str("}}")?;
    Ok(text)
}

// A document whose names print as four times their bytes, in each of many lines.
fn names(alloc: Global, source: &mut Source) -> Result<String, AllocError> {
    let mut text = String::from_str(alloc, "{\"cardinal\":{")?;
    for number in 0..source.some_of(NAMES) {
        text.push_str(if number == 0 { "\"" } else { ",\"" })?;
        for _ in 0..8 {
            text.push_str("\u{7f}")?;
        }
        text.push_str("_")?;
        push_name(&mut text, source, number)?;
        text.push_str("\":{")?;
        let mut separator = "\"";
        for form in ["zero", "one", "two", "few", "many", "other"] {
            text.push_str(separator)?;
            text.push_str(form)?;
            text.push_str("\":\"@integer.,.,.,.,.,.,.,.,.,.,.\"")?;
            separator = ",\"";
        }
        text.push_str("}")?;
    }
    text.push_str("}}")?;
    Ok(text)
}

pub(crate) fn awkward_round(alloc: Global, source: &mut Source, digest: &mut Digest) -> Result<()> {
    let text = many_compared(alloc, source)?;
    check(alloc, text.as_str().as_bytes(), digest)?;
    let text = parents(alloc, source)?;
    check(alloc, text.as_str().as_bytes(), digest)?;
    let text = names(alloc, source)?;
    check(alloc, text.as_str().as_bytes(), digest)
}
