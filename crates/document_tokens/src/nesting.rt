//! Which arrays and objects are open at a place of a JSON text.

ghost use Rattle.std.specs.Prelude.{◌≡◌, ◌<◌, ◌≤◌, [], ◌∷◌, drop, length};
ghost use Rattle.std.specs.Bool.{MatchBool};
ghost use Rattle.document_tokens.specs.Inner.OpenKinds.{innermost, is_innermost_kind};

use std::marker::Model;

// How deep arrays and objects nest at most, as in what `serde_json` reads.
const MOST_OPEN: u32 = 127;

// What is open, in one bit each, the innermost in the lowest: 1 is an object, and 0 an array.
#[derive(Drop)]
pub(crate) struct Nesting {
    count: u32,
    objects: u128,
}

impl Model for Nesting {
    ghost use Rattle.std.specs.Prelude.{Bool, List, ◌^◌, ◌<◌, ◌≤◌};
    ghost use Rattle.document_tokens.specs.Inner.OpenKinds.{open_of};

    ghost Value = { List Bool };

    ghost view = { λ nesting. open_of nesting.count nesting.objects };

    ghost invariant = { λ nesting. (nesting.count ≤ 127) × (nesting.objects < 2 ^ nesting.count) };
}

impl Nesting {
    // Nothing is open.
    pub(crate) fn none() -> Nesting
        ensures { result ≡ [] }
    {
        Nesting {
            count: 0,
            objects: 0,
        }
    }

    // Whether the innermost is an object. Nothing may be open.
    pub(crate) fn innermost(&self) -> Option<bool>
        ensures { result ≡ innermost self.now }
    {
        if self.count == 0 {
            return None;
        }
        Some(self.objects % 2 == 1)
    }

    // Whether the innermost is an object, if this is true, or an array.
    #[inline(always)]
    pub(crate) fn is_in(&self, is_object: bool) -> bool
        ensures { result ≡ is_innermost_kind is_object self.now }
    {
        if is_object {
            self.objects % 2 == 1
        } else {
            self.count > 0 && self.objects % 2 == 0
        }
    }

    // How many are open.
    #[inline(always)]
    pub(crate) fn depth(&self) -> u32
        ensures { result ≡ length self.now }
    {
        self.count
    }

    // Opens an object or an array, unless as many are open as may be.
    pub(crate) fn open(&mut self, is_object: bool) -> bool
        ensures { MatchBool result
            ((length self.old < MOST_OPEN) × (self.new ≡ is_object ∷ self.old)) (MOST_OPEN ≤ length self.old) }
    {
        if self.count >= MOST_OPEN {
            return false;
        }
        self.count += 1;
        self.objects = self.objects * 2 + u128::from(is_object);
        true
    }

    // Closes the innermost, if there is one.
    pub(crate) fn close(&mut self)
        ensures { self.new ≡ drop 1 self.old }
    {
        if self.count > 0 {
            self.count -= 1;
            self.objects /= 2;
        }
    }
}
