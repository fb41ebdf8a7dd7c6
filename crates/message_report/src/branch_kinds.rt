//! Which branches an argument has.

ghost use Rattle.std.specs.Prelude.{◌≡◌, ◌||◌, bytes_eq, false};
ghost use Rattle.icu_plurals.specs.Categories.{name_of};
ghost use Rattle.icu_plurals.specs.declared.PluralCategory.{PluralCategory as Category};
ghost use Rattle.message_format.specs.FormatBranches.{is_keyword};
ghost use Rattle.message_pattern.specs.PatternParts.{branches_of, parts_view, selector_view};
ghost use Rattle.message_report.specs.Inner.BranchKinds.{has_kind, has_number_branch, is_number_selector};
ghost use Rattle.message_report.specs.PatternBranches.{has_category_branch};

use icu_plurals::{Five, PluralCategory};
use message_pattern::{Part, Piece, Selector};
use plural_base::{at_category, make_five};

// Whether an argument has branches by numbers, and of which categories it has branches.
#[derive(Clone, Copy)]
pub(crate) struct BranchKinds {
    pub(crate) number: bool,
    categories: Five<bool>,
    other: bool,
}

impl BranchKinds {
    // Those of an argument at a depth, of which these parts follow its beginning. They are walked
    // once.
    pub(crate) fn of(depth: usize, parts: &[Part<'_>]) -> BranchKinds
        ensures number { result.number ≡ has_number_branch (branches_of depth (parts_view parts.now)) }
        ensures category { (category : Category) → has_kind category result ≡ has_category_branch category (branches_of depth (parts_view parts.now)) }
    {
        let mut kinds = BranchKinds::none();
        let mut left = parts;
        while let [part, rest @ ..] = left {
            if part.depth <= depth {
                let Piece::Branch(selector) = part.piece else {
                    return kinds;
                };
                kinds.see(selector);
            }
            left = rest;
        }
        kinds
    }

    // None.
    fn none() -> BranchKinds
        ensures number { result.number ≡ false }
        ensures category { (category : Category) → has_kind category result ≡ false }
    {
        BranchKinds {
            number: false,
            categories: make_five!(Five, |_category| false),
            other: false,
        }
    }

    // Sees the selector of a branch.
    fn see(&mut self, selector: Selector<'_>)
        ensures number { self.new.number ≡ self.old.number || is_number_selector (selector_view selector.entry) }
        ensures category { (category : Category) → has_kind category self.new
            ≡ has_kind category self.old || is_keyword (name_of category) (selector_view selector.entry) }
    {
        match selector {
            Selector::Exactly(_) => self.number = true,
            Selector::Keyword(word) => self.see_word(word),
        }
    }

    // Sees a keyword. Frequent ones are looked for first.
    fn see_word(&mut self, word: &[u8])
        ensures number { self.new.number ≡ self.old.number }
        ensures category { (category : Category) → has_kind category self.new
            ≡ has_kind category self.old || bytes_eq word.now (name_of category) }
    {
        match word {
            b"other" => self.other = true,
            b"one" => self.categories.one = true,
            b"few" => self.categories.few = true,
            b"many" => self.categories.many = true,
            b"two" => self.categories.two = true,
            b"zero" => self.categories.zero = true,
            _ => {}
        }
    }

    // Whether there is a branch of a category.
    pub(crate) fn has(self, category: PluralCategory) -> bool
        ensures { result ≡ has_kind category self }
    {
        at_category!(self.categories, category, |has| *has, self.other)
    }
}
