//! What is told, as a log of SARIF.

ghost use Rattle.std.specs.Prelude.{◌≡◌, IfOk, map, string_bytes};
ghost use Rattle.finding_formats.specs.LocatedFindings.{located_view, notice_view, told_view};
ghost use Rattle.finding_formats.specs.LocatedFindings as listed;
ghost use Rattle.finding_formats.specs.LocatedLog.{located_log, located_result, notice_result, told_result};
ghost use Rattle.serde_json.specs.View.{view};

use crate::located::Located;
use crate::located_words::located_words;
use crate::log::{ValueMaker, physical_value, values_of};
use crate::notice::Notice;
use crate::sarif::{finding_result, forms_log};
use crate::severity::level;
use crate::told::Told;
use serde_json::{Value, json};
use std::alloc::{AllocError, Global};

// The log.
pub(crate) fn located_log(alloc: Global, located: &[Located<'_>]) -> Result<String, AllocError>
    ensures { IfOk result (λ text. string_bytes text ≡ located_log (map located_view located.now)) }
{
    let results = values_of(alloc, &LocatedResults, located)?;
    forms_log(alloc, results)
}

// The results of what is told.
#[derive(Drop)]
struct LocatedResults;

impl<'a> ValueMaker<Located<'a>> for LocatedResults {
    ghost Seen = { listed.Located };

    ghost seen = { located_view };

    ghost data_of = { λ results. located_result };

    fn value(&self, alloc: Global, one: &Located<'a>) -> Result<Value, AllocError> {
        let words = located_words(alloc, one)?;
        told_result(alloc, &one.told, one.known_line(), words.as_str())
    }
}

// The result of what is told, given its line, if it is known, and its words.
fn told_result(
    alloc: Global,
    told: &Told<'_>,
    line: Option<u64>,
    words: &str,
) -> Result<Value, AllocError>
    ensures { IfOk result (λ value. view value ≡ told_result line (told_view told.now) words.now) }
{
    match *told {
        Told::Finding(finding) => finding_result(alloc, &finding, line, words),
        Told::Notice(notice) => notice_result(alloc, notice, line, words),
    }
}

// The result of a notice, which has no place by name, and whose code has no rule.
fn notice_result(
    alloc: Global,
    notice: Notice<'_>,
    line: Option<u64>,
    words: &str,
) -> Result<Value, AllocError>
    ensures { IfOk result (λ value. view value ≡ notice_result line (notice_view notice.entry) words.now) }
{
    let physical = physical_value(alloc, notice.file, line)?;
    json!(in alloc; {
        "level": level(notice.severity),
        "locations": [{"physicalLocation": physical}],
        "message": {"text": words},
        "ruleId": notice.code
    })
}
