//! What no contract and no row says of reports: failing readers and writers.

mod answers;
mod chains;
mod inputs;
mod sizes;
mod words;
mod writers;

use crate::tests::assertion::holds;
use crate::tests::input::Input;
use crate::tests::report::answers::{gives, is_told};
use document_report::CheckError;

const USAGE: &str = "2: usage: plurals_check [--format text|json|sarif|github] < DOCUMENT\n";

#[test]
fn any_word_is_answered_with_the_usage(rt: HostRuntime) {
    holds!(rt; gives(rt.alloc(), true, &mut Input::failing(), USAGE) == Some(true));
}

#[test]
fn faults_that_no_document_shows_have_their_texts(rt: HostRuntime) {
    holds!(rt; is_told(&CheckError::Memory, "2: out of memory\n"));
    holds!(rt; is_told(&CheckError::Write, "2: cannot write output\n"));
}
