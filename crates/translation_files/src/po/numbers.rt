//! The numbers on which the indices of a file and the categories of its language are compared.

use crate::pushed::push;
use std::alloc::{AllocError, Global};

// All numbers below this one are tried.
pub(crate) const TRIED_BELOW: u64 = 10_000;

// The powers of ten from there on: their multiples by 1 to 9 are tried, and these and 1.
const POWERS: [u64; 6] = [
    10_000,
    100_000,
    1_000_000,
    10_000_000,
    100_000_000,
    1_000_000_000,
];

// The numbers that are tried, from 0 on.
pub(crate) fn tried_numbers(alloc: Global) -> Result<Vec<u64>, AllocError> {
    let mut numbers = Vec::new(alloc);
    match push_tried(&mut numbers) {
        Ok(()) => Ok(numbers),
        Err(error) => Err(error),
    }
}

// Appends the numbers that are tried.
fn push_tried(numbers: &mut Vec<u64>) -> Result<(), AllocError> {
    for number in 0..TRIED_BELOW {
        push(numbers, number)?;
    }
    for power in POWERS {
        push_multiples(numbers, power)?;
    }
    Ok(())
}

// Appends the multiples of a power, and the numbers behind them.
fn push_multiples(numbers: &mut Vec<u64>, power: u64) -> Result<(), AllocError> {
    for factor in 1..10u64 {
        let number = power.saturating_mul(factor);
        push(numbers, number)?;
        push(numbers, number.saturating_add(1))?;
    }
    Ok(())
}
