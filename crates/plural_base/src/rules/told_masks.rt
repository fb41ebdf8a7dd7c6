//! What is told of 128 classes of numbers at once.

ghost use Rattle.std.specs.Prelude.{◌<◌, ◌&&◌, ◌||◌, ℕ, Bool, if◌then◌else◌, not, true, false};
ghost use Rattle.plural_reference.specs.Truth.{under};
ghost use Rattle.plural_runtime.specs.RuleKinds.{operator_of};
ghost use Rattle.plural_base.specs.Inner.Masks.{has_bit, IsToldAt};
ghost use Rattle.plural_base.specs.Inner.WholeNumbers.{IsToldIf};

use plural_runtime::Polarity;

// The classes of whose numbers something is true of all, and those where it is true of none. Of
// the others it isn't told.
#[derive(Clone, Copy)]
pub(crate) struct Told {
    pub(crate) yes: u128,
    pub(crate) no: u128,
}

// This, of each class.
pub(crate) fn told_alike(truth: bool) -> Told
    ensures { (class : ℕ) → class < 128 → IsToldAt class truth truth result }
{
    if truth {
        Told {
            yes: u128::MAX,
            no: 0,
        }
    } else {
        Told {
            yes: 0,
            no: u128::MAX,
        }
    }
}

// That it is true of the classes of a mask, and of no other.
pub(crate) fn told_exactly(classes: u128) -> Told
    ensures { (class : ℕ) → class < 128 → IsToldAt class (has_bit classes class) (has_bit classes class) result }
{
    Told {
        yes: classes,
        no: !classes,
    }
}

// Nothing, of any class.
pub(crate) fn untold() -> Told
    ensures { (class : ℕ) → IsToldAt class false true result }
{
    Told { yes: 0, no: 0 }
}

// That it is false of the classes of a mask.
pub(crate) fn told_false(classes: u128) -> Told
    ensures { (class : ℕ) → IsToldAt class false (not (has_bit classes class)) result }
{
    Told {
        yes: 0,
        no: classes,
    }
}

// Whether one of two holds.
pub(crate) fn either(first: Told, second: Told) -> Told
    ensures { (class : ℕ) (b c d e : Bool) → IsToldAt class b c first → IsToldAt class d e second
        → IsToldAt class (b || d) (c || e) result }
{
    Told {
        yes: first.yes | second.yes,
        no: first.no & second.no,
    }
}

// Whether both hold.
pub(crate) fn both(first: Told, second: Told) -> Told
    ensures { (class : ℕ) (b c d e : Bool) → IsToldAt class b c first → IsToldAt class d e second
        → IsToldAt class (b && d) (c && e) result }
{
    Told {
        yes: first.yes & second.yes,
        no: first.no | second.no,
    }
}

// Whether a relation is true by a polarity, as far as it is told whether its list holds the value.
pub(crate) fn under_polarity(is_in: Told, polarity: Polarity) -> Told
    ensures { (class : ℕ) (told b : Bool) → IsToldIf class told b is_in
        → IsToldIf class told (under (operator_of polarity) b) result }
{
    match polarity {
        Polarity::Positive => is_in,
        Polarity::Negative => negated(is_in),
    }
}

// Whether it doesn't hold.
fn negated(told: Told) -> Told
    ensures { (class : ℕ) (b c : Bool) → IsToldAt class b c told → IsToldAt class (not c) (not b) result }
{
    Told {
        yes: told.no,
        no: told.yes,
    }
}
