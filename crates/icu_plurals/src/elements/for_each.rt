//! A closure called with the values.

ghost use Rattle.std.specs.Prelude.{Ok, OnOk, IfErr, [], ◌∷◌};
ghost use Rattle.std.specs.Fn.{CalledAt};
ghost use Rattle.icu_plurals.specs.Elements.{values_in_order};
ghost use Rattle.icu_plurals.specs.ElementCalls.{VisitsAt, VisitsEach, StopsAt};

use super::PluralElements;
use super::places::for_places;

impl<T> PluralElements<T> {
    /// Calls the closure for other, zero, one, two, few, many, explicit zero and explicit one, in
    /// this order, if they are present.
    ///
    /// <!-- snippet crates/example_calls/src/calls/closures.rt: body of fn print_widest -->
    /// ```
    /// let widths = PluralElements::new(5u8).with_one_value(Some(4));
    /// let mut widest = 0;
    /// widths.for_each(|width| {
    ///     if widest < *width {
    ///         widest = *width;
    ///     }
    /// });
    /// println!(rt; "{widest}")?;
    /// ```
    ///
    /// This prints
    ///
    /// <!-- snippet crates/example_calls/stdout: section for_each -->
    /// ```text
    /// 5
    /// ```
    pub fn for_each<F: FnMut(&T)>(&self, mut f: F)
        requires { F.IsAlwaysCallable f }
        ensures { (last : F) × VisitsEach (CalledAt F.FnMut) f (values_in_order self.now) last }
    {
        self.visit_all(&mut f);
    }

    /// As [`PluralElements::for_each`] up to the first `Err` of the closure, which is then the
    /// result; the closure isn't called again.
    ///
    /// <!-- snippet crates/example_calls/src/calls/closures.rt: body of fn print_first_wide -->
    /// ```
    /// let widths = PluralElements::new(4u8).with_one_value(Some(5));
    /// let answer = widths.try_for_each(|width| if *width < 5 { Ok(()) } else { Err(*width) });
    /// if let Err(width) = answer {
    ///     println!(rt; "{width} is refused")?;
    /// }
    /// ```
    ///
    /// This prints
    ///
    /// <!-- snippet crates/example_calls/stdout: section try_for_each -->
    /// ```text
    /// 5 is refused
    /// ```
    pub fn try_for_each<E, F: FnMut(&T) -> Result<(), E>>(&self, f: F) -> Result<(), E>
        requires { F.IsAlwaysCallable f }
        ensures ok { OnOk result ((last : F) × VisitsEach (λ p x y q. CalledAt F.FnMut p x (Ok y) q) f (values_in_order self.now) last) }
        ensures err { IfErr result (λ e. (last : F) × StopsAt (CalledAt F.FnMut) f (values_in_order self.now) e last) }
    {
        self.as_ref().try_map(f)?;
        Ok(())
    }

    // Calls with the values that are present, and no others.
    fn visit_all<F: FnMut(&T)>(&self, f: &mut F)
        requires { F.IsAlwaysCallable f.old }
        ensures { VisitsEach (CalledAt F.FnMut) f.old (values_in_order self.now) f.new }
    {
        for_places!(
            &self,
            |value| f(value),
            |a, b, c| visit_three(a, b, c, f),
            |place| visit_place(place, f)
        );
    }
}

// A call with each of three values that is present.
fn visit_three<T, F: FnMut(&T)>(a: &Option<T>, b: &Option<T>, c: &Option<T>, f: &mut F)
    requires { F.IsAlwaysCallable f.old }
    ensures called { VisitsEach (CalledAt F.FnMut) f.old (a.now ∷ b.now ∷ c.now ∷ []) f.new }
    ensures again { F.IsAlwaysCallable f.new }
{
    visit_place(a, f);
    visit_place(b, f);
    visit_place(c, f);
}

// A call with the value, if present.
fn visit_place<T, F: FnMut(&T)>(place: &Option<T>, f: &mut F)
    requires { F.IsAlwaysCallable f.old }
    ensures called { VisitsAt (CalledAt F.FnMut) f.old place.now f.new }
    ensures again { F.IsAlwaysCallable f.new }
{
    if let Some(value) = place {
        f(value);
    }
}
