//! Lines of numbers whose reader or whose writer of answers fails.

use crate::tests::assertion::holds;
use crate::tests::awaits::{awaiting, awaits_fault};
use crate::tests::forms::asked::{Asked, RULES, answer};
use crate::tests::forms::writers::is_failed_write;
use crate::tests::input::Input;
use crate::tests::taking::Taking;
use std::alloc::Global;
use std::test::Fail;

// Returns whether the lines, with spaces up to a length, are answered by this text and then the
// fault of a reader that fails after them, and no note is written.
fn fails_after(alloc: Global, lines: &[u8], length: usize, text: &str) -> bool {
    let mut rules = RULES;
    let mut lines = Input::up_to(lines, length, true);
    let (mut writer, mut notes) = (awaiting(text), Taking::some(0, true));
    let answer = answer(
        alloc,
        Asked::Lines,
        &mut rules,
        &mut lines,
        &mut writer,
        &mut notes,
    );
    let is_told = match answer {
        Ok(_) => false,
        Err(fault) => awaits_fault(writer, fault.status(), &fault),
    };
    is_told && lines.failures == 1 && notes.is_untouched()
}

// Returns how many bytes of lines are left by a writer that takes this many bytes of their answers,
// if it is a fault and the writer is left alone.
fn left_of_lines(alloc: Global, lines: &[u8], taken: usize) -> Option<usize> {
    let (mut rules, mut rest) = (RULES, lines);
    let (mut writer, mut notes) = (Taking::some(taken, true), Taking::some(0, true));
    let answer = answer(
        alloc,
        Asked::Lines,
        &mut rules,
        &mut rest,
        &mut writer,
        &mut notes,
    );
    let is_stopped = writer.left == 0 && writer.is_left_alone();
    if is_failed_write(&answer) && is_stopped && notes.is_untouched() {
        Some(rest.len())
    } else {
        None
    }
}

// The answers are written whenever 4096 bytes were read, which are 2048 of the last lines.
#[test]
fn lines_before_a_failing_read_or_write_are_answered(rt: HostRuntime) -> Result<(), Fail> {
    let rows: [(&[u8], usize, &str); 6] = [
        (b"", 0, "2: cannot read numbers\n"),
        (b"1", 0, "2: cannot read numbers\n"),
        (b"1\n2\n", 0, "one\nother\n2: cannot read numbers\n"),
        (b"1\n2", 0, "one\n2: cannot read numbers\n"),
        (b"x\n1", 0, "line 1: bad number\n2: cannot read numbers\n"),
        (b"1\n", 5000, "one\n2: cannot read numbers\n"),
    ];
    for (lines, length, text) in rows {
        holds!(rt; fails_after(rt.alloc(), lines, length, text), text);
    }
    let mut lines = Vec::new(rt.alloc());
    for _ in 0..3000u16 {
        lines.extend_from_slice(b"1\n")?;
    }
    let lines = lines.as_slice();
    for (taken, left) in [(0usize, 1904usize), (8191, 1904), (8192, 0), (11_999, 0)] {
        holds!(rt; left_of_lines(rt.alloc(), lines, taken) == Some(left), at taken);
    }
    Ok(())
}

// Returns whether the lines are answered by this text, and its note follows.
fn are_answered_by(alloc: Global, lines: &[u8], text: &str) -> bool {
    let (mut rules, mut rest) = (RULES, lines);
    let (mut writer, mut notes) = (awaiting(text), awaiting(Asked::Lines.notes()));
    let answer = answer(
        alloc,
        Asked::Lines,
        &mut rules,
        &mut rest,
        &mut writer,
        &mut notes,
    );
    answer.is_ok() && writer.is_done() && notes.is_done()
}

// Three of the lines are 9 bytes, so that a line stands over the end of some of the reads of 4096
// bytes; the tables are made after 1024 lines. The last read is no text.
#[test]
fn many_lines_are_answered(rt: HostRuntime) -> Result<(), Fail> {
    let mut lines = Vec::new(rt.alloc());
    let mut text = String::new(rt.alloc());
    for k in 0..1500u64 {
        lines.extend_from_slice(b"1\n22.50\n\n")?;
        text.push_str("one\nother\n")?;
        let empty = format!(in rt.alloc(); "line {}: bad number\n", 3 * k + 3)?;
        text.push_str(empty.as_str())?;
    }
    lines.extend_from_slice(b"1\r\n\xff\n1")?;
    text.push_str("line 4501: bad number\nline 4502: not UTF-8\none\n")?;
    holds!(rt; are_answered_by(rt.alloc(), lines.as_slice(), text.as_str()));
    Ok(())
}
