//! A closure that may change the values.

ghost use Rattle.std.specs.Prelude.{Ok, OnOk, IfErr, [], ◌∷◌};
ghost use Rattle.std.specs.Fn.{CalledAtMut};
ghost use Rattle.icu_plurals.specs.Elements.{values_in_order};
ghost use Rattle.icu_plurals.specs.ElementCalls.{CallsAt, CallsEach, Changes, ChangesTo, RefusesChanging, StopsAtChanging};

use super::PluralElements;
use super::places::for_places;

impl<T> PluralElements<T> {
    /// Calls the closure, which may change the value that it gets, for other, zero, one, two, few,
    /// many, explicit zero and explicit one, in this order, if they are present.
    ///
    /// <!-- snippet crates/example_calls/src/calls/closures.rt: body of fn print_widened -->
    /// ```
    /// let mut widths = PluralElements::new(5u8).with_one_value(Some(4));
    /// widths.for_each_mut(|width| *width = width.saturating_add(100));
    /// println!(rt; "one {}, other {}", widths.one(), widths.other())?;
    /// ```
    ///
    /// This prints
    ///
    /// <!-- snippet crates/example_calls/stdout: section for_each_mut -->
    /// ```text
    /// one 104, other 105
    /// ```
    pub fn for_each_mut<F: FnMut(&mut T)>(&mut self, mut f: F)
        requires { F.IsAlwaysCallable f }
        ensures { (last : F) × CallsEach (Changes (CalledAtMut F.FnMut)) f (values_in_order self.old) (values_in_order self.new) last }
    {
        for_places!(
            &mut self,
            |value| f(value),
            |a, b, c| change_three(a, b, c, &mut f),
            |place| change_place(place, &mut f)
        );
    }

    /// As [`PluralElements::for_each_mut`] up to the first `Err` of the closure, which is then the
    /// result; the closure isn't called again, and what it has changed before stays changed.
    ///
    /// <!-- snippet crates/example_calls/src/calls/closures.rt: body of fn print_limited -->
    /// ```
    /// let mut widths = PluralElements::new(5u8).with_one_value(Some(200));
    /// let answer = widths.try_for_each_mut(|width| match width.checked_add(100) {
    ///     Some(more) => {
    ///         *width = more;
    ///         Ok(())
    ///     }
    ///     None => Err(*width),
    /// });
    /// if let Err(width) = answer {
    ///     println!(rt; "{width} is refused")?;
    /// }
    /// println!(rt; "one {}, other {}", widths.one(), widths.other())?;
    /// ```
    ///
    /// This prints
    ///
    /// <!-- snippet crates/example_calls/stdout: section try_for_each_mut -->
    /// ```text
    /// 200 is refused
    /// one 200, other 105
    /// ```
    pub fn try_for_each_mut<E, F: FnMut(&mut T) -> Result<(), E>>(
        &mut self,
        mut f: F,
    ) -> Result<(), E>
        requires { F.IsAlwaysCallable f }
        ensures ok { OnOk result ((last : F) × CallsEach (ChangesTo (CalledAtMut F.FnMut)) f (values_in_order self.old) (values_in_order self.new) last) }
        ensures err { IfErr result (λ e. (last : F) × StopsAtChanging (CalledAtMut F.FnMut) f (values_in_order self.old) (values_in_order self.new) e last) }
    {
        for_places!(
            &mut self,
            |value| f(value)?,
            |a, b, c| try_change_three(a, b, c, &mut f)?,
            |place| try_change_place(place, &mut f)?
        );
        Ok(())
    }
}

// A call with each of three values that is present.
fn change_three<T, F: FnMut(&mut T)>(
    a: &mut Option<T>,
    b: &mut Option<T>,
    c: &mut Option<T>,
    f: &mut F,
)
    requires { F.IsAlwaysCallable f.old }
    ensures called { CallsEach (Changes (CalledAtMut F.FnMut)) f.old (a.old ∷ b.old ∷ c.old ∷ []) (a.new ∷ b.new ∷ c.new ∷ []) f.new }
    ensures again { F.IsAlwaysCallable f.new }
{
    change_place(a, f);
    change_place(b, f);
    change_place(c, f);
}

// A call with the value, if present.
fn change_place<T, F: FnMut(&mut T)>(place: &mut Option<T>, f: &mut F)
    requires { F.IsAlwaysCallable f.old }
    ensures called { CallsAt (Changes (CalledAtMut F.FnMut)) f.old place.old place.new f.new }
    ensures again { F.IsAlwaysCallable f.new }
{
    if let Some(value) = place {
        f(value);
    }
}

// A call with each of three values that is present.
fn try_change_three<T, E, F: FnMut(&mut T) -> Result<(), E>>(
    a: &mut Option<T>,
    b: &mut Option<T>,
    c: &mut Option<T>,
    f: &mut F,
) -> Result<(), E>
    requires { F.IsAlwaysCallable f.old }
    ensures ok { OnOk result (CallsEach (ChangesTo (CalledAtMut F.FnMut)) f.old (a.old ∷ b.old ∷ c.old ∷ []) (a.new ∷ b.new ∷ c.new ∷ []) f.new) }
    ensures err { IfErr result (λ e. StopsAtChanging (CalledAtMut F.FnMut) f.old (a.old ∷ b.old ∷ c.old ∷ []) (a.new ∷ b.new ∷ c.new ∷ []) e f.new) }
    ensures again { F.IsAlwaysCallable f.new }
{
    try_change_place(a, f)?;
    try_change_place(b, f)?;
    try_change_place(c, f)?;
    Ok(())
}

// A call with the value, if present.
fn try_change_place<T, E, F: FnMut(&mut T) -> Result<(), E>>(
    place: &mut Option<T>,
    f: &mut F,
) -> Result<(), E>
    requires { F.IsAlwaysCallable f.old }
    ensures ok { OnOk result (CallsAt (ChangesTo (CalledAtMut F.FnMut)) f.old place.old place.new f.new) }
    ensures err { IfErr result (λ e. RefusesChanging (CalledAtMut F.FnMut) f.old place.old place.new e f.new) }
    ensures again { F.IsAlwaysCallable f.new }
{
    match place {
        Some(value) => f(value),
        None => Ok(()),
    }
}
