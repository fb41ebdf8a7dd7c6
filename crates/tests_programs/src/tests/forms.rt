//! What no contract says of `form_commands`: readers and writers that fail.

mod asked;
mod inputs;
mod lines;
mod writers;
