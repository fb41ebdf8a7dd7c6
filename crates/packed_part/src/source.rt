//! What parts are taken from, as a list of parts.

ghost use Rattle.std.specs.Prelude.{◌≡◌, ◌∷◌, [], MatchOption};
ghost use Rattle.message_pattern.specs.PatternParts.{part_view};

use message_pattern::Part;

/// Parts that are taken from the front, one after another. A copy gives the same parts again.
pub trait PartSource<'p>: Copy {
    ghost use Rattle.std.specs.Prelude.{List};
    ghost use Rattle.message_pattern.specs.PatternParts.{Part as SpecPart};

    // The remaining parts.
    ghost parts: { Self → List SpecPart };

    /// Takes the first remaining part; none if there is none.
    fn next_part(&mut self) -> Option<Part<'p>>
        ensures { MatchOption result (parts self.old ≡ []) (λ part. parts self.old ≡ part_view part ∷ parts self.new) };
}

impl<'s, 'p> PartSource<'p> for &'s [Part<'p>] {
    ghost use Rattle.message_pattern.specs.PatternParts.{parts_view};

    ghost parts = { λ parts. parts_view parts.now };

    #[inline]
    fn next_part(&mut self) -> Option<Part<'p>> {
        let [first, others @ ..] = *self else {
            return None;
        };
        *self = others;
        Some(*first)
    }
}
