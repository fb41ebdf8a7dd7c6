//! What no contract says of the programs' libraries: worked words, documents and texts, failing
//! readers and writers.

mod assertion;
mod awaits;
mod commands;
mod forms;
mod input;
mod line;
mod pieces;
mod report;
mod taking;
