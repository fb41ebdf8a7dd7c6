//! Rows of calls and wanted results: how they are read, and compared with what the calls return.
#![tactic(auto)]

mod allocations;
pub mod arguments;
pub mod call;
pub mod elements;
pub mod fault;
mod row;
pub mod rules;
pub mod run;
mod tally;
