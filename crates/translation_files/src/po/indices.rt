//! The index of each number by a catalog's `Plural-Forms`.

use crate::po::numbers::tried_numbers;
use crate::po::range::Range;
use crate::pushed::push;
use gettext_plural::{IndexError, PluralForms};
use std::alloc::{AllocError, Global};

// The index of a number.
#[derive(Clone, Copy)]
pub(crate) struct NumberIndex {
    pub(crate) number: u64,
    pub(crate) index: u64,
}

// A number that has no index.
#[derive(Clone, Copy)]
pub(crate) struct IndexFault {
    pub(crate) number: u64,
    pub(crate) error: IndexError,
}

// How many forms a catalog has, and their numbers.
#[derive(Drop)]
pub(crate) struct Indices {
    pub(crate) count: u64,
    // The index of each number that is tried.
    pub(crate) tried: Vec<NumberIndex>,
    // How many numbers have each index.
    pub(crate) times: Vec<u64>,
}

impl Indices {
    // No number yet, of so many forms.
    pub(crate) fn new(alloc: Global, count: u64) -> Indices {
        Indices {
            count,
            tried: Vec::new(alloc),
            times: Vec::new(alloc),
        }
    }

    // Adds the index of each number that is tried, up to one that has none, which is returned.
    pub(crate) fn fill(
        &mut self,
        alloc: Global,
        forms: &PluralForms,
    ) -> Result<Option<IndexFault>, AllocError> {
        for _ in 0..self.count {
            push(&mut self.times, 0)?;
        }
        match tried_numbers(alloc) {
            Ok(numbers) => self.add_all(forms, numbers.as_slice()),
            Err(error) => Err(error),
        }
    }

    // Adds the index of each of some numbers, up to one that has none, which is returned.
    fn add_all(
        &mut self,
        forms: &PluralForms,
        numbers: &[u64],
    ) -> Result<Option<IndexFault>, AllocError> {
        for number in numbers {
            let number = *number;
            match forms.index(number) {
                Ok(index) => self.add(number, index)?,
                Err(error) => return Ok(Some(IndexFault { number, error })),
            }
        }
        Ok(None)
    }

    // Adds the index of a number.
    fn add(&mut self, number: u64, index: u64) -> Result<(), AllocError> {
        if let Some(times) = self.times.get_mut(index as usize) {
            *times = times.saturating_add(1);
        }
        push(&mut self.tried, NumberIndex { number, index })
    }

    // The indices of the numbers in a range.
    pub(crate) fn within(&self, alloc: Global, range: Range) -> Result<Indices, AllocError> {
        let mut indices = Indices::new(alloc, self.count);
        match indices.add_within(self, range) {
            Ok(()) => Ok(indices),
            Err(error) => Err(error),
        }
    }

    // Adds the numbers of others that are in a range.
    fn add_within(&mut self, all: &Indices, range: Range) -> Result<(), AllocError> {
        for _ in 0..self.count {
            push(&mut self.times, 0)?;
        }
        for it in all.tried.iter() {
            if range.low <= it.number && it.number <= range.high {
                self.add(it.number, it.index)?;
            }
        }
        Ok(())
    }

    // The least two numbers that have an index, if several have it.
    pub(crate) fn least_two(&self, index: u64) -> Option<(u64, u64)> {
        if self.times_of(index) < 2 {
            return None;
        }
        let mut least = None;
        for it in self.tried.iter() {
            if it.index == index {
                match least {
                    Some(first) => return Some((first, it.number)),
                    None => least = Some(it.number),
                }
            }
        }
        None
    }

    // How many numbers have an index.
    pub(crate) fn times_of(&self, index: u64) -> u64 {
        match self.times.get(index as usize) {
            Some(times) => *times,
            None => 0,
        }
    }

    // The index of a number that is tried.
    pub(crate) fn index_of(&self, number: u64) -> Option<u64> {
        for it in self.tried.iter() {
            if it.number == number {
                return Some(it.index);
            }
        }
        None
    }
}
