//! The categories of numbers, as rules choose them: the least whole numbers of each, and the fault
//! of a number that is listed under another.
#![tactic(auto)]

mod least_numbers;
mod number_fault;
mod number_walk;
mod sought;
mod two_numbers;
mod whole_numbers;

pub use least_numbers::LeastNumbers;
pub use number_fault::{NumberFault, category_fault};
pub use number_walk::WHOLE_LIMIT;
pub use two_numbers::TwoNumbers;
pub use whole_numbers::{least_from, least_of_each, two_least, two_least_of_each};
