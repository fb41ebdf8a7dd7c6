//! The printed texts of the parts of samples.

use super::part::Part;
use super::{serialize_decimal_value, serialize_sample_list, serialize_sample_range};
use crate::ast;
use std::fmt;

impl Part for ast::SampleList {
    ghost use Rattle.plural_reference.specs.Serializer.{sample_list_text};

    ghost text = { sample_list_text };

    #[inline(always)]
    fn write_to<W: fmt::Write>(&self, w: &mut W) -> fmt::Result {
        serialize_sample_list(self, w)
    }
}

impl Part for ast::SampleRange {
    ghost use Rattle.plural_reference.specs.Serializer.{sample_range_text};

    ghost text = { sample_range_text };

    #[inline(always)]
    fn write_to<W: fmt::Write>(&self, w: &mut W) -> fmt::Result {
        serialize_sample_range(self, w)
    }
}

impl Part for ast::DecimalValue {
    ghost use Rattle.plural_reference.specs.Serializer.{sample_text};

    ghost text = { sample_text };

    #[inline(always)]
    fn write_to<W: fmt::Write>(&self, w: &mut W) -> fmt::Result {
        serialize_decimal_value(self, w)
    }
}
