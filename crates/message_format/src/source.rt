//! What a message is said from.

ghost use Rattle.std.specs.Prelude.{◌≡◌, ◌≤◌, ◌↔◌, ◌∷◌, [], ℕ, List, drop, length, IsTrue, IfOk, MatchOption, option_map};
ghost use Rattle.plural_base.specs.Categories.{name_of};
ghost use Rattle.message_pattern.specs.PatternParts.{Selector as SpecSelector, Keyword, part_view, selector_view};
ghost use Rattle.message_format.specs.FormatBranches.{behind_end, branch_or_other};
ghost use Rattle.message_format.specs.FormatParts.{branches_at, first_depth, AreLeftOf, AreWithin, BeginWithChoice, IsFirstChosen};

use message_pattern::{Part, Selector};
use plural_base::PluralCategory;

/// What chooses a branch by its selector.
pub trait Chooser {
    /// Why a selector isn't compared.
    type Stop;

    ghost IsReady: { Self → Type 0 };

    ghost IsChosen: { Self → SpecSelector → Type 0 };

    /// Returns whether the selector is chosen.
    fn chooses(&self, selector: Selector<'_>) -> Result<bool, Self::Stop>
        requires { IsReady self.now }
        ensures { IfOk result (λ chosen. IsTrue chosen ↔ IsChosen self.now (selector_view selector.entry)) };
}

/// A branch of an argument, and parts that are left of the argument: what stands behind its end is
/// sought from these on.
#[derive(Clone, Copy)]
pub struct Found<P> {
    /// The parts from the branch on.
    pub branch: P,
    /// The parts that are left.
    pub left: P,
}

/// A branch, if it is there, and parts that are left of the argument.
#[derive(Clone, Copy)]
pub struct Seen<P> {
    /// The parts from the branch on.
    pub branch: Option<P>,
    /// The parts that are left.
    pub left: P,
}

/// Parts of a pattern, from a place on. Of an argument that the first of them begins they have the
/// branches.
pub trait MessageParts<'p>: Copy {
    ghost use Rattle.std.specs.Prelude.{List};
    ghost use Rattle.message_pattern.specs.PatternParts.{Part as SpecPart};

    ghost parts: { Self → List SpecPart };

    /// Returns the first part, and the parts behind it.
    fn first(self) -> Option<(Part<'p>, Self)>
        ensures { MatchOption result (parts self ≡ []) (λ found. parts self ≡ part_view found.0 ∷ parts found.1) };

    /// Returns the first branch of a keyword, or of `other` if there is none.
    fn branch_of_word(self, word: &[u8]) -> Found<Self>
        ensures branch { parts result.branch ≡ branch_or_other word.now (branches_at (parts self)) }
        ensures shorter { length (parts result.branch) ≤ length (drop 1 (parts self)) }
        ensures left { AreLeftOf (parts self) (parts result.left) };

    /// Returns the first branch of a category, or of `other` if there is none.
    fn branch_of_category(self, category: PluralCategory) -> Self
        ensures branch { parts result ≡ branch_or_other (name_of category) (branches_at (parts self)) }
        ensures shorter { length (parts result) ≤ length (drop 1 (parts self)) };

    /// Returns the first branch by a number that is chosen. The error is why a selector isn't
    /// compared.
    fn first_chosen<C: Chooser>(self, chooser: &C) -> Result<Seen<Self>, C::Stop>
        requires ready { C.IsReady chooser.now }
        requires numbers { (word : List ℕ) → C.IsChosen chooser.now (Keyword word) → ⊥ }
        ensures first { IfOk result (λ seen. IsFirstChosen (C.IsChosen chooser.now) (branches_at (parts self)) (option_map parts seen.branch)) }
        ensures shorter { IfOk result (λ seen. AreWithin (parts self) (option_map parts seen.branch)) }
        ensures left { IfOk result (λ seen. AreLeftOf (parts self) (parts seen.left)) };

    /// Returns the parts behind the end of the argument that the first part begins, of which parts
    /// are left.
    fn behind(self, left: Self) -> Self
        requires begun { BeginWithChoice (parts self) }
        requires left { AreLeftOf (parts self) (parts left) }
        ensures end { parts result ≡ behind_end (first_depth (parts self)) (drop 1 (parts self)) }
        ensures fewer { length (parts result) ≤ length (drop 1 (parts self)) };
}
