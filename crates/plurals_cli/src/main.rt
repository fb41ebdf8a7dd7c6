//! The program `plurals`: plural rules from a command line.
#![tactic(auto)]

use plural_commands::RunError;
use plural_commands::arguments::arguments;
use plural_commands::run::run;
use std::process::ExitCode;

// Writes the answer to the words of the command line.
fn answer_words(rt: &HostRuntime) -> Result<(), RunError> {
    let owned = arguments(rt.alloc(), rt)?;
    let Ok(words) = owned
        .iter()
        .map(|word| word.as_str())
        .collect::<Vec<&str>>(rt.alloc())
    else {
        return Err(RunError::Memory);
    };
    run(
        rt.alloc(),
        words.as_slice(),
        &mut rt.stdin(),
        &mut rt.stdout(),
    )
}

fn main(rt: HostRuntime) -> ExitCode {
    match answer_words(&rt) {
        Ok(()) => ExitCode::SUCCESS,
        Err(fault) => {
            let _ = eprintln!(rt; "plurals: {fault}");
            ExitCode::from(fault.status())
        }
    }
}
