//! The file that has the rules.

use crate::failure::Failure;
use std::env::{VarError, var};
use std::fs::File;
use std::rt::{Env, Files};

// The variable that names a file of rules.
const VARIABLE: &str = "PLURALS_RULES";

// The name of the file that has the rules: the given one, else the one that the variable
// `PLURALS_RULES` names. `None` if the variable is absent or empty.
pub(crate) fn rules_name<R: Env + AllocGlobal>(
    rt: &R,
    file: Option<&str>,
) -> Result<Option<String>, Failure> {
    let Some(name) = file else {
        return named_by_variable(rt);
    };
    match String::from_str(rt.alloc(), name) {
        Ok(name) => Ok(Some(name)),
        Err(_) => Err(Failure::Memory),
    }
}

// The name that the variable has.
fn named_by_variable<R: Env + AllocGlobal>(rt: &R) -> Result<Option<String>, Failure> {
    match var(rt, VARIABLE) {
        Ok(name) => Ok(if name.is_empty() { None } else { Some(name) }),
        Err(VarError::NotPresent) => Ok(None),
        Err(VarError::OutOfMemory) => Err(Failure::Memory),
        Err(_) => Err(Failure::Variable),
    }
}

// Opens a file.
pub(crate) fn open<R: Files + AllocGlobal>(rt: &R, name: &String) -> Result<R::File, Failure> {
    match File::open(rt, name.as_str()) {
        Ok(file) => Ok(file),
        Err(_) => match String::from_str(rt.alloc(), name.as_str()) {
            Ok(name) => Err(Failure::Open(name)),
            Err(_) => Err(Failure::Memory),
        },
    }
}
