//! The program `tests_reports`: compares what the libraries of reports, programs and exports return
//! with rows of wanted results.
//!
//! The rows are read from the files that the arguments name, or from the standard input if there
//! are none.
#![tactic(auto)]

mod kinds;

use kinds::Calls;
use row_calls::run::run;
use std::process::ExitCode;

fn main(rt: HostRuntime) -> ExitCode {
    match run::<Calls>(&rt) {
        Ok(true) => ExitCode::SUCCESS,
        Ok(false) => ExitCode::FAILURE,
        Err(fault) => {
            let _ = eprintln!(rt; "cases: {fault}");
            ExitCode::from(2)
        }
    }
}
