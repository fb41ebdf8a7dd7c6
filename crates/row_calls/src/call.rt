//! A call that a row describes: its arguments, and what is printed of its result.

use crate::fault::RowFault;
use serde_json::Value;
use std::alloc::{AllocError, Global};
use std::fmt;
use std::fmt::{Debug, Display, Write};
use std::vec::IntoIter;

/// A call: its arguments, each of which is taken once, and what is printed of its result.
///
/// The first fault is kept, and ends in the place of the result. So an argument that isn't what it
/// should be is taken as an empty value, and the call goes on.
pub struct Call {
    /// The memory of the call.
    pub alloc: Global,
    left: IntoIter<Value>,
    printed: String,
    fault: Option<RowFault>,
}

// Written out, so that each end of a value is one call.
impl Drop for Call {
    fn drop(self) {
        let Call {
            alloc: _,
            left: _,
            printed: _,
            fault: _,
        } = self;
    }
}

impl Call {
    /// Returns a call with the arguments that a text writes, which is the inside of a JSON array.
    pub fn read(alloc: Global, text: &str) -> Result<Call, RowFault> {
        let array = format!(in alloc; "[{text}]")?;
        match Value::from_str(alloc, array.as_str()) {
            Ok(Value::Array(values)) => Ok(Call {
                alloc,
                left: values.into_iter(),
                printed: String::new(alloc),
                fault: None,
            }),
            Ok(_) => Err(RowFault::NotJson),
            Err(fault) => Err(json_fault(fault.is_memory())),
        }
    }

    /// Returns what was printed, or the first fault. An argument that is left is one.
    pub fn end(&mut self) -> Result<String, RowFault> {
        if self.left.next().is_some() {
            self.keep(RowFault::ArgumentLeft);
        }
        match self.fault {
            Some(fault) => Err(fault),
            None => Ok(self.take_printed()),
        }
    }

    /// Returns what was printed so far, after which nothing is.
    pub fn take_printed(&mut self) -> String {
        std::mem::replace(&mut self.printed, String::new(self.alloc))
    }

    /// Returns the next argument as it is.
    pub fn value(&mut self) -> Value {
        match self.left.next() {
            Some(value) => value,
            None => {
                self.keep(RowFault::ArgumentMissing);
                Value::Null
            }
        }
    }

    /// Keeps the fault that an argument isn't what is named here.
    pub fn not(&mut self, form: &'static str) {
        self.keep(RowFault::Not(form));
    }

    /// Keeps the fault that an argument isn't what is named here, which an error says, or that memory
    /// ran out, if that is what it says.
    pub fn refused(&mut self, form: &'static str, error: &impl Debug) {
        if is_memory(error) {
            self.out_of_memory();
        } else {
            self.not(form);
        }
    }

    /// Keeps the fault that memory ran out.
    pub fn out_of_memory(&mut self) {
        self.keep(RowFault::Memory);
    }

    // Keeps a fault, if it is the first one.
    fn keep(&mut self, fault: RowFault) {
        if self.fault.is_none() {
            self.fault = Some(fault);
        }
    }

    /// Returns an empty text.
    pub fn empty(&self) -> String {
        String::new(self.alloc)
    }

    /// Returns an empty writer with room for 4096 bytes: it needs no more memory for a short answer.
    pub fn writer(&mut self) -> Vec<u8> {
        match Vec::with_capacity(self.alloc, 4096) {
            Ok(writer) => writer,
            Err(_) => {
                self.out_of_memory();
                Vec::new(self.alloc)
            }
        }
    }

    /// Adds a piece to a text.
    pub fn add(&mut self, text: &mut String, piece: &str) {
        if text.push_str(piece).is_err() {
            self.out_of_memory();
        }
    }

    /// Adds an item to a list.
    pub fn add_item<T: Drop>(&mut self, list: &mut Vec<T>, item: T) {
        if list.push(item).is_err() {
            self.out_of_memory();
        }
    }

    /// Returns a text that was made, if memory didn't run out.
    pub fn made(&mut self, text: Result<String, AllocError>) -> String {
        match text {
            Ok(text) => text,
            Err(_) => {
                self.out_of_memory();
                self.empty()
            }
        }
    }

    /// Prints a text.
    pub fn print(&mut self, text: &str) {
        if self.printed.push_str(text).is_err() {
            self.out_of_memory();
        }
    }

    /// Prints a text in place of all that was printed.
    pub fn print_alone(&mut self, text: &str) {
        self.printed = self.empty();
        self.print(text);
    }

    /// Prints `none` if nothing was printed.
    pub fn print_none_if_empty(&mut self) {
        if self.printed.is_empty() {
            self.print("none");
        }
    }

    /// Prints a mark if something was printed.
    pub fn separate(&mut self, mark: &str) {
        if !self.printed.is_empty() {
            self.print(mark);
        }
    }

    /// Prints what `Display` writes.
    pub fn print_value(&mut self, value: &impl Display) {
        let _ = write!(self, "{value}");
    }

    /// Prints what `Debug` writes.
    pub fn print_name(&mut self, value: &impl Debug) {
        let _ = write!(self, "{value:?}");
    }

    /// Prints `error` and the name of an error, as its `Debug` writes it. If the name is `Memory`,
    /// keeps the fault that memory ran out.
    pub fn print_error(&mut self, error: &impl Debug) {
        if is_memory(error) {
            self.out_of_memory();
        } else {
            let _ = write!(self, "error {error:?}");
        }
    }

    /// Prints `true` or `false`.
    pub fn print_truth(&mut self, value: bool) {
        self.print(if value { "true" } else { "false" });
    }

    /// Prints a size in bytes.
    pub fn print_size(&mut self, bytes: &[u8]) {
        let size = bytes.len();
        let _ = write!(self, "{size} bytes");
    }

    /// Prints the hexadecimal digits of bytes.
    pub fn print_digits(&mut self, bytes: &[u8]) {
        match hex::encode(self.alloc, bytes) {
            Ok(digits) => self.print(digits.as_str()),
            Err(_) => self.out_of_memory(),
        }
    }

    /// Prints the hexadecimal digits of bytes, or `no bytes`.
    pub fn print_bytes(&mut self, bytes: &[u8]) {
        if bytes.is_empty() {
            self.print("no bytes");
        } else {
            self.print_digits(bytes);
        }
    }

    /// Prints a JSON value.
    pub fn print_json(&mut self, value: &Value) {
        let text = self.made(value.to_string(self.alloc));
        self.print(text.as_str());
    }

    /// Prints a text between quotes, and in it a backslash before a quote or backslash, `\n` for a
    /// newline.
    pub fn print_quoted(&mut self, text: &str) {
        self.print("\"");
        for c in text.chars() {
            self.print_escaped(c);
        }
        self.print("\"");
    }

    // Prints a character of a text between quotes.
    fn print_escaped(&mut self, c: char) {
        match c {
            '"' => self.print("\\\""),
            '\\' => self.print("\\\\"),
            '\n' => self.print("\\n"),
            _ => {
                if self.printed.push(c).is_err() {
                    self.out_of_memory();
                }
            }
        }
    }
}

// What is written is printed. A fault is kept, so none is returned.
impl fmt::Write for Call {
    fn write_str(&mut self, s: &str) -> fmt::Result {
        self.print(s);
        Ok(())
    }
}

// What is still awaited of a name.
#[derive(Drop)]
struct Awaited {
    left: &'static str,
}

impl fmt::Write for Awaited {
    fn write_str(&mut self, s: &str) -> fmt::Result {
        self.left = self.left.strip_prefix(s).ok_or(fmt::Error)?;
        Ok(())
    }
}

// Whether the name of an error is `Memory`.
fn is_memory(error: &impl Debug) -> bool {
    let mut name = Awaited { left: "Memory" };
    let is_begun = write!(name, "{error:?}").is_ok();
    is_begun && name.left.is_empty()
}

// The fault of arguments that no value was read from.
fn json_fault(is_memory: bool) -> RowFault {
    if is_memory {
        RowFault::Memory
    } else {
        RowFault::NotJson
    }
}
