//! Whether a translation has what its languages need.

ghost use Rattle.std.specs.Prelude.{IfOk};
ghost use Rattle.serde_json.specs.View.{view};
ghost use Rattle.example_callers.specs.Notice.{IsComplete};

use message_report::run::run;
use message_report::{MessageFile, ReportError, RulesOfLocales};
use serde_json::Value;
use std::alloc::Global;

/// Returns whether a document of messages has no fault under the rules of its locales. It
/// allocates.
pub fn is_complete<S: RulesOfLocales>(
    alloc: Global,
    source: &S,
    document: &Value,
) -> Result<bool, ReportError>
    ensures { IfOk result (λ complete. IsComplete (S.source source.now) (view document.now) complete) }
{
    let file = MessageFile { name: "", document };
    let mut report = Vec::new(alloc);
    match run(alloc, source, &[file], &mut report) {
        Ok(counts) => Ok(counts.faults == 0),
        Err(error) => Err(error),
    }
}
