//! Choices that a seed determines.

use rand_core::{Rng, SeedableRng};
use rand_xoshiro::Xoshiro256PlusPlus;

// A source of choices, and the part of a job that is done: one in so many.
#[derive(Drop)]
pub(crate) struct Source {
    words: Xoshiro256PlusPlus,
    part: u64,
}

impl Source {
    pub(crate) fn new(seed: u64, part: u64) -> Source {
        Source {
            words: Xoshiro256PlusPlus::seed_from_u64(seed),
            part,
        }
    }

    // How many of so many things are made, at least one.
    pub(crate) fn some_of(&self, count: u64) -> u64 {
        if self.part == 0 {
            count
        } else {
            (count / self.part).saturating_add(1)
        }
    }

    // A number below `most`, or 0 if that is 0.
    pub(crate) fn below(&mut self, most: u64) -> u64 {
        let word = self.words.next_u64();
        if most == 0 { 0 } else { word % most }
    }

    // A number from one to another.
    pub(crate) fn between(&mut self, least: u64, most: u64) -> u64 {
        let more = most.saturating_sub(least).saturating_add(1);
        least.saturating_add(self.below(more))
    }

    // A place below a length, or 0 if that is 0.
    pub(crate) fn place(&mut self, length: usize) -> usize {
        self.below(length as u64) as usize
    }

    // Whether a thing happens that happens in one of so many cases.
    pub(crate) fn one_in(&mut self, cases: u64) -> bool {
        self.below(cases) == 0
    }

    // One of the texts, or an empty one if there are none.
    pub(crate) fn one_of<'a>(&mut self, texts: &[&'a str]) -> &'a str {
        let place = self.place(texts.len());
        match texts.get(place) {
            Some(text) => *text,
            None => "",
        }
    }
}
