//! A plural argument of a pattern.

ghost use Rattle.std.specs.Prelude.{◌≡◌};
ghost use Rattle.icu_plurals.specs.declared.PluralCategory.{PluralCategory as Category};
ghost use Rattle.message_pattern.specs.PatternParts.{branches_of, parts_view};
ghost use Rattle.message_report.specs.Inner.BranchKinds.{has_kind};
ghost use Rattle.message_report.specs.PatternBranches.{has_category_branch};

use crate::branch_kinds::BranchKinds;
use message_pattern::Part;

// A plural or an ordinal.
#[derive(Clone, Copy)]
pub(crate) struct Argument<'a, 'p> {
    pub(crate) name: &'a [u8],
    pub(crate) has_offset: bool,
    // How many branches it is in.
    pub(crate) depth: usize,
    // The parts that follow its beginning.
    pub(crate) parts: &'p [Part<'a>],
    // Which branches it has.
    pub(crate) kinds: BranchKinds,
    // Whether exactly 0 has a branch of its own, and exactly 1.
    pub(crate) own_zero: bool,
    pub(crate) own_one: bool,
    ghost branched: { (category : Category) → has_kind category kinds ≡ has_category_branch category (branches_of depth (parts_view parts.now)) },
}
