//! Within the bound the kept operands of a number decide a packed rule as the number itself does.

ghost use Rattle.plural_reference.specs.ExactnessLaws.{RelationsAgree, GroupsAgree, ConditionsAgree, HoldsWholeNumbers, ShiftedPlaces, LongValue, BoundIsWidest};

/// Within the bound a relation is true of the kept operands of a number, as packed rules test it
/// (`test_rule`, `category_for`), if and only if it is true of the exact number; so are groups of
/// relations and conditions. The moduli on n and i are those of the bound, 0 aside, and ranges
/// end below `10^18`. [`test_condition`] differs: n at a fraction and a modulus 0 are false under
/// `!=` too.
///
/// [`test_condition`]: crate::test_condition
pub fn kept_operands_agree()
    ensures relations { RelationsAgree }
    ensures groups { GroupsAgree }
    ensures conditions { ConditionsAgree }
{}

/// A relation on `n` is about whole numbers: its ranges hold the exact number if and only if the
/// number, or its remainder by the modulus, is a whole number in them.
pub fn ranges_hold_whole_numbers()
    ensures { HoldsWholeNumbers }
{}

/// What the bound requires of a shifted number, by the places and digits before the shift.
pub fn bound_before_the_shift()
    ensures places { ShiftedPlaces }
    ensures value { LongValue }
{}

/// The bound on moduli is the widest: for each modulus that doesn't divide `10^18`, a relation is
/// true of `2 * 10^18` and false of its kept part.
pub fn bound_is_widest()
    ensures { BoundIsWidest }
{}
