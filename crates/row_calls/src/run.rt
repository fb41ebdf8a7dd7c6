//! The rows of all files.

use crate::allocations;
use crate::call::Call;
use crate::fault::RowFault;
use crate::row::{Row, is_skipped};
use crate::tally::Tally;
use std::alloc::Global;
use std::io::Read;
use std::{env, fs, io};

/// The kinds of rows of a program.
pub trait Kinds {
    /// Makes the call of a kind, and prints its result as a short text. Returns whether there is
    /// such a kind.
    fn make(kind: &str, call: &mut Call) -> bool;
}

/// Compares the rows of the files that the arguments name, or of the standard input, and prints the
/// report. Returns whether all have their wanted result.
pub fn run<K: Kinds>(rt: &HostRuntime) -> io::Result<bool> {
    let mut tally = Tally::new(rt.alloc());
    let mut paths = env::args(rt)?;
    let _program = paths.next();
    let mut is_named = false;
    for path in paths {
        is_named = true;
        let rows = fs::read_to_string(rt, path.as_str())?;
        compare_file::<K>(rt, &mut tally, path.as_str(), rows.as_str())?;
    }
    if !is_named {
        let mut rows = String::new(rt.alloc());
        rt.stdin().read_to_string(&mut rows)?;
        compare_file::<K>(rt, &mut tally, "stdin", rows.as_str())?;
    }
    print_counts(rt, &tally)?;
    Ok(tally.wrong == 0)
}

// Compares the rows of a file, which has to have some.
fn compare_file<K: Kinds>(
    rt: &HostRuntime,
    tally: &mut Tally,
    file: &str,
    lines: &str,
) -> io::Result<()> {
    let before = tally.rows;
    let mut number = 0_u64;
    for line in lines.lines() {
        number = number.saturating_add(1);
        if !is_skipped(line) {
            compare_line::<K>(rt, tally, file, number, line)?;
        }
    }
    if tally.rows == before {
        tally.count_wrong();
        println!(rt; "{file}: fault: no rows")?;
    }
    Ok(())
}

// Compares a row, and prints it if it is wrong.
fn compare_line<K: Kinds>(
    rt: &HostRuntime,
    tally: &mut Tally,
    file: &str,
    number: u64,
    line: &str,
) -> io::Result<()> {
    tally.count_row();
    let asked_again = tally.asked_again;
    let result = result_of_line::<K>(rt.alloc(), tally, line);
    if tally.asked_again != asked_again {
        println!(rt; "{file}:{number}: asked again")?;
    }
    match result {
        Ok((row, found)) => {
            if found.as_str() != row.wanted {
                tally.count_wrong();
                let (kind, wanted) = (row.kind, row.wanted);
                println!(rt; "{file}:{number}: {kind}: wanted {wanted}, found {found}")?;
            }
        }
        Err(fault) => {
            tally.count_wrong();
            println!(rt; "{file}:{number}: fault: {fault}")?;
        }
    }
    Ok(())
}

// The row of a line, and its result. What wants memory is asked once more: after one allocation was
// refused, its result is that of the row.
fn result_of_line<'a, K: Kinds>(
    alloc: Global,
    tally: &mut Tally,
    line: &'a str,
) -> Result<(Row<'a>, String), RowFault> {
    let row = Row::read(line)?;
    let mut result = result_of::<K>(alloc, row);
    if matches!(&result, Err(RowFault::Memory)) {
        tally.ask_again();
        result = result_of::<K>(alloc, row);
    }
    let found = result?;
    if tally.count(alloc, row.kind).is_err() {
        tally.ask_again();
        tally.count(alloc, row.kind)?;
    }
    Ok((row, found))
}

// The result of the call of a row.
fn result_of<K: Kinds>(alloc: Global, row: Row<'_>) -> Result<String, RowFault> {
    let mut call = Call::read(alloc, row.arguments)?;
    if !allocations::make(row.kind, &mut call) && !K::make(row.kind, &mut call) {
        return Err(RowFault::UnknownKind);
    }
    call.end()
}

// Prints how many rows of each kind there were, and how many in all.
fn print_counts(rt: &HostRuntime, tally: &Tally) -> io::Result<()> {
    for count in &tally.kinds {
        let kind = count.kind.as_str();
        println!(rt; "{kind}: {}", count.rows)?;
    }
    println!(rt; "rows: {}, wrong: {}", tally.rows, tally.wrong)
}
