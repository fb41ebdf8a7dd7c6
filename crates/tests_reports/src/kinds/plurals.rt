//! What the program `plurals` prints.

use plural_commands::RunError;
use plural_commands::run::run;
use row_calls::call::Call;
use std::io;
use std::io::Read;

/// Makes the call of a kind of this file. Returns whether there is such a kind.
pub fn make(kind: &str, call: &mut Call) -> bool {
    match kind {
        "plurals" => plurals(call),
        "plurals_bytes" => plurals_bytes(call),
        "plurals_writes" => plurals_writes(call),
        _ => return false,
    }
    true
}

// A reader that fails.
#[derive(Drop)]
struct NoInput;

impl Read for NoInput {
    fn read(&mut self, _buf: &mut [u8]) -> io::Result<usize> {
        Err(io::Error::from(io::ErrorKind::BrokenPipe))
    }
}

// The answers to commands over a text, or over a reader that fails.
fn plurals(call: &mut Call) {
    let (input, commands) = (call.optional_text(), call.texts());
    for command in &commands {
        call.separate(" | ");
        match &input {
            Some(text) => print_answer(call, command.as_str(), &mut text.as_bytes()),
            None => print_answer(call, command.as_str(), &mut NoInput),
        }
    }
}

// The answer to a command over bytes.
fn plurals_bytes(call: &mut Call) {
    let (input, command) = (call.bytes(), call.text());
    print_answer(call, command.as_str(), &mut input.as_slice());
}

// Whether each of the commands over a text is answered by just this text.
fn plurals_writes(call: &mut Call) {
    let (input, commands, wanted) = (call.text(), call.texts(), call.text());
    for command in &commands {
        let mut reader = input.as_str().as_bytes();
        let (written, fault) = answer(call, command.as_str(), &mut reader);
        call.separate(" ");
        call.print_truth(fault.is_empty() && written.as_slice() == wanted.as_bytes());
    }
}

// Prints the answer to a command: what is written, between quotes, or the status and the text of the
// fault, after which nothing is.
fn print_answer<R: Read>(call: &mut Call, command: &str, reader: &mut R) {
    let (written, fault) = answer(call, command, reader);
    if !fault.is_empty() {
        call.print(fault.as_str());
        if written.is_empty() {
            return;
        }
    }
    match std::str::from_utf8(written.as_slice()) {
        Ok(text) => call.print_quoted(text),
        Err(_) => call.not("a text"),
    }
}

// Returns what a command writes, whose words are separated by bars, and the status and the text of its
// fault, which is empty if there is none.
fn answer<R: Read>(call: &mut Call, command: &str, reader: &mut R) -> (Vec<u8>, String) {
    let words = words_of(call, command);
    let mut written = call.writer();
    let fault = match run(call.alloc, words.as_slice(), reader, &mut written) {
        Ok(()) => call.empty(),
        Err(RunError::Memory) if written.is_empty() => {
            call.out_of_memory();
            call.empty()
        }
        Err(fault) => {
            let status = fault.status();
            let text = format!(in call.alloc; "{status}: {fault}");
            call.made(text)
        }
    };
    (written, fault)
}

// The words of a command.
fn words_of<'w>(call: &mut Call, command: &'w str) -> Vec<&'w str> {
    let mut words = Vec::new(call.alloc);
    for word in command.split('|') {
        call.add_item(&mut words, word);
    }
    words
}
