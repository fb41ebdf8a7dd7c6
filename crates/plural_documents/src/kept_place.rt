//! What is printed for a place, kept for what follows it there.

ghost use Rattle.std.specs.Prelude.{◌≡◌, None, IfOk, IsSomeAnd};
ghost use Rattle.std.specs.Bool.{OnTrue};

use std::alloc::{AllocError, Global};
use std::marker::Model;

/// A place that is printed.
pub trait PrintedPlace: Copy {
    ghost use Rattle.std.specs.Prelude.{◌≡◌, ◌++◌, List, ℕ, OnOk, string_bytes};
    ghost use Rattle.std.specs.Bool.{OnTrue};

    // What is printed for it.
    ghost text_of: { Self → List ℕ };

    /// Appends what is printed for the place. It allocates; the only error is out of memory.
    fn push(&self, text: &mut String) -> Result<(), AllocError>
        ensures { OnOk result (string_bytes text.new ≡ string_bytes text.old ++ text_of self.now) };

    /// Returns whether the same is printed for both, as far as it is seen without memory.
    fn is_same(&self, other: &Self) -> bool
        ensures { OnTrue result (text_of self.now ≡ text_of other.now) };
}

/// What is printed for a place, kept for what follows it there. Contracts see the place, if there
/// is one.
#[derive(Drop)]
pub struct KeptPlace<P: PrintedPlace> {
    place: Option<P>,
    text: String,
}

impl<P: PrintedPlace> Model for KeptPlace<P> {
    ghost use Rattle.std.specs.Prelude.{◌≡◌, IfSome, Option, string_bytes};

    ghost Value = { Option P };

    ghost view = { λ kept. kept.place };

    ghost invariant = { λ kept. IfSome kept.place (λ p. string_bytes kept.text ≡ P.text_of p) };
}

impl<P: PrintedPlace> KeptPlace<P> {
    /// Returns none. It allocates nothing.
    pub fn new(alloc: Global) -> KeptPlace<P>
        ensures { result ≡ None }
    {
        KeptPlace {
            place: None,
            text: String::new(alloc),
        }
    }

    /// Returns what is printed for a place, and keeps it where the last one was. It allocates,
    /// unless this is kept; the only error is out of memory.
    pub fn text(&mut self, place: P) -> Result<&str, AllocError>
        ensures { IfOk result (λ text. text.now ≡ P.text_of place) }
    {
        if !is_kept(self.place, place) {
            self.place = None;
            self.text.clear();
            place.push(&mut self.text)?;
            self.place = Some(place);
        }
        Ok(self.text.as_str())
    }
}

// Whether a place is printed as the kept one.
fn is_kept<P: PrintedPlace>(kept: Option<P>, place: P) -> bool
    ensures { OnTrue result (IsSomeAnd kept (λ k. P.text_of k ≡ P.text_of place)) }
{
    match kept {
        Some(kept) => kept.is_same(&place),
        None => false,
    }
}
