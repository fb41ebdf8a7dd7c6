//! What is printed for what is told of files.

ghost use Rattle.std.specs.Prelude.{◌≡◌, IfOk, map, string_bytes};
ghost use Rattle.finding_formats.specs.LocatedFindings.{located_view};
ghost use Rattle.finding_formats.specs.LocatedReport.{located_text};

use crate::format::Format;
use crate::located::Located;
use crate::located_commands::located_commands;
use crate::located_lines::located_lines;
use crate::located_log::located_log;
use crate::located_report::located_report;
use crate::totals::Totals;
use std::alloc::{AllocError, Global};

/// Returns what is told of files, in its order, as text in a format. It allocates; the only error is
/// out of memory.
///
/// `text` has a line `FILE:LINE: error [CODE] ..` or `.. note [CODE] ..` for each, and one with the
/// totals, as `json` has; `sarif` has a result for each, and `github` a command.
pub fn print_located(
    alloc: Global,
    format: Format,
    located: &[Located<'_>],
    totals: Totals,
) -> Result<String, AllocError>
    ensures { IfOk result (λ text. string_bytes text ≡ located_text format (map located_view located.now) totals) }
{
    match format {
        Format::Text => located_report(alloc, located, totals),
        Format::Json => located_lines(alloc, located, totals),
        Format::Sarif => located_log(alloc, located),
        Format::GitHub => located_commands(alloc, located),
    }
}
