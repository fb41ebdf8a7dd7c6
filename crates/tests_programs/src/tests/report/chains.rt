//! Chains of parents.

use crate::tests::assertion::holds;
use crate::tests::report::answers::gives;
use std::alloc::{AllocError, Global};
use std::test::Fail;

// Returns a document where each of the locales `a`, `aa`, `aaa`, .. up to this many letters, but
// the last, has the next one as its parent.
fn document_of_chain(alloc: Global, locales: usize) -> Result<String, AllocError> {
    let mut text = String::from_str(alloc, r#"{"cardinal":{"a":{"other":""}},"parents":{"#)?;
    for letters in 1..locales {
        let comma = if letters == 1 { "" } else { "," };
        let child = letters_of(alloc, letters)?;
        let parent = letters_of(alloc, letters + 1)?;
        let (child, parent) = (child.as_str(), parent.as_str());
        text.push_str(format!(in alloc; r#"{comma}"{child}":"{parent}""#)?.as_str())?;
    }
    text.push_str("}}")?;
    Ok(text)
}

// Returns this many letters.
fn letters_of(alloc: Global, letters: usize) -> Result<String, AllocError> {
    Ok(String::from_utf8(vec![in alloc; b'a'; letters]?).unwrap_or(String::new(alloc)))
}

// Returns the report of a document where the chains of this many locales of letters don't end.
fn report_of_chain(alloc: Global, faults: usize) -> Result<String, AllocError> {
    let mut text = String::new(alloc);
    for letters in 0..faults {
        let child = letters_of(alloc, letters + 1)?;
        let child = child.as_str();
        let line = format!(in alloc; "parents {child}: the chain of parents doesn't end\n")?;
        text.push_str(line.as_str())?;
    }
    let counts = format!(in alloc; "locales: 1, rules: 1, numbers: 0, faults: {faults}\n")?;
    text.push_str(counts.as_str())?;
    Ok(text)
}

// The chain of each locale is told by its own steps, also where that of another one passes it: all
// but the last 31 go on.
#[test]
fn chains_on_the_way_of_longer_ones_have_their_own_steps(rt: HostRuntime) -> Result<(), Fail> {
    let alloc = rt.alloc();
    for locales in 33..64 {
        let document = document_of_chain(alloc, locales)?;
        let report = report_of_chain(alloc, locales - 31)?;
        let given = gives(alloc, false, &mut document.as_bytes(), report.as_str());
        holds!(rt; given == Some(true));
    }
    Ok(())
}
