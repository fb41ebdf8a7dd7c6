//! What is told, as lines of JSON.

ghost use Rattle.std.specs.Prelude.{◌≡◌, IfOk, map, string_bytes};
ghost use Rattle.finding_formats.specs.JsonLines.{json_line};
ghost use Rattle.finding_formats.specs.LocatedFindings.{located_view};
ghost use Rattle.finding_formats.specs.LocatedFindings as listed;
ghost use Rattle.finding_formats.specs.LocatedObjects.{located_data, located_lines};

use crate::json_lines::push_value;
use crate::located::Located;
use crate::located_object::{located_value, totals_value};
use crate::totals::Totals;
use plural_documents::{LinePrinter, push_lines};
use std::alloc::{AllocError, Global};

// A line for each, and one with the totals.
pub(crate) fn located_lines(
    alloc: Global,
    located: &[Located<'_>],
    totals: Totals,
) -> Result<String, AllocError>
    ensures { IfOk result (λ text. string_bytes text ≡ located_lines (map located_view located.now) totals) }
{
    let mut text = String::new(alloc);
    push_lines(alloc, &mut LocatedObjects, located, &mut text)?;
    let totals = totals_value(alloc, totals)?;
    push_value(alloc, &mut text, &totals)?;
    Ok(text)
}

// The objects of what is told.
#[derive(Drop)]
struct LocatedObjects;

impl<'a> LinePrinter<Located<'a>> for LocatedObjects {
    ghost Seen = { listed.Located };

    ghost seen = { located_view };

    ghost line_of = { λ objects one. json_line (located_data one) };

    fn push(
        &mut self,
        alloc: Global,
        one: &Located<'a>,
        text: &mut String,
    ) -> Result<(), AllocError> {
        let value = located_value(alloc, one)?;
        push_value(alloc, text, &value)
    }
}
