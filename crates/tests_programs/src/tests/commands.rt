//! What no contract and no row says of commands: failing readers and writers.

mod answers;
mod arguments;
mod documents;
mod inputs;
mod languages;
mod sizes;
mod writers;

use crate::tests::assertion::holds;
use crate::tests::commands::answers::{gives, is_told};
use crate::tests::input::Input;
use icu_plurals::{ElementsPackError, JsonError};
use plural_commands::RunError;

const USAGE: &str =
    "2: usage: test CONDITION INTEGER; category LOCALE TYPE NUMBER; range LOCALE TYPE START END; print LOCALE TYPE; select LOCALE TYPE NUMBER; message LOCALE TYPE NUMBER\n";

#[test]
fn faults_that_no_command_shows_have_their_texts(rt: HostRuntime) {
    holds!(rt; is_told(&RunError::Memory, "1: out of memory\n"));
    holds!(rt; is_told(&RunError::Write, "1: cannot write output\n"));
    let pack = RunError::Document(JsonError::Pack(ElementsPackError::StartLimit));
    holds!(rt; is_told(&pack, "1: bad document: elements too long\n"));
}

#[test]
fn no_words_take_no_memory(rt: HostRuntime) {
    holds!(rt; gives(rt.alloc(), &[], &mut Input::failing(), USAGE) == Some(true));
}
