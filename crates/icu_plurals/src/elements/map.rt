//! Elements of a closure's results.

ghost use Rattle.std.specs.Prelude.{Ok, IfOk, IfErr, [], ◌∷◌};
ghost use Rattle.icu_plurals.specs.Elements.{values_in_order};
ghost use Rattle.icu_plurals.specs.ElementCalls.{CallsAt, CallsEach, RefusesAt, StopsAt};

use super::PluralElements;
use super::places::make_elements;

impl<T> PluralElements<T> {
    /// Returns the closure's results for the values, at the same keys. It is called for other,
    /// zero, one, two, few, many, explicit zero and explicit one, in this order, if they are
    /// present.
    ///
    /// <!-- snippet crates/example_calls/src/calls/closures.rt: body of fn print_mapped -->
    /// ```
    /// let texts = PluralElements::new("files").with_one_value(Some("file"));
    /// let widths = texts.map(|text| text.len());
    /// println!(rt; "one {}, other {}", widths.one(), widths.other())?;
    /// ```
    ///
    /// This prints
    ///
    /// <!-- snippet crates/example_calls/stdout: section map -->
    /// ```text
    /// one 4, other 5
    /// ```
    pub fn map<B, F: FnMut(T) -> B>(self, mut f: F) -> PluralElements<B>
        requires { F.IsAlwaysCallable f }
        ensures { (last : F) × CallsEach (λ p x y q. F.step p x y q) f (values_in_order self) (values_in_order result) last }
    {
        make_elements!(
            self,
            |value| f(value),
            |a, b, c| map_three(a, b, c, &mut f),
            |place| map_place(place, &mut f)
        )
    }

    /// As [`PluralElements::map`] up to the first `Err` of the closure, which is then the result;
    /// the closure isn't called again.
    ///
    /// <!-- snippet crates/example_calls/src/calls/closures.rt: body of fn print_parsed -->
    /// ```
    /// let texts = PluralElements::new("10").with_one_value(Some("x"));
    /// let numbers = texts.try_map(|text| text.parse::<u8>());
    /// println!(rt; "{}", numbers.is_ok())?;
    /// ```
    ///
    /// This prints
    ///
    /// <!-- snippet crates/example_calls/stdout: section try_map -->
    /// ```text
    /// false
    /// ```
    pub fn try_map<B, E, F: FnMut(T) -> Result<B, E>>(
        self,
        mut f: F,
    ) -> Result<PluralElements<B>, E>
    where
        T: Drop,
        B: Drop,
        requires { F.IsAlwaysCallable f }
        ensures ok { IfOk result (λ made. (last : F) × CallsEach (λ p x y q. F.step p x (Ok y) q) f (values_in_order self) (values_in_order made) last) }
        ensures err { IfErr result (λ e. (last : F) × StopsAt (λ p x y q. F.step p x y q) f (values_in_order self) e last) }
    {
        Ok(make_elements!(
            self,
            |value| f(value)?,
            |a, b, c| try_map_three(a, b, c, &mut f)?,
            |place| try_map_place(place, &mut f)?
        ))
    }
}

// The results for three values, each if present.
fn map_three<T, B, F: FnMut(T) -> B>(
    a: Option<T>,
    b: Option<T>,
    c: Option<T>,
    f: &mut F,
) -> (Option<B>, Option<B>, Option<B>)
    requires { F.IsAlwaysCallable f.old }
    ensures called { CallsEach (λ p x y q. F.step p x y q) f.old (a ∷ b ∷ c ∷ []) (result.0 ∷ result.1 ∷ result.2 ∷ []) f.new }
    ensures again { F.IsAlwaysCallable f.new }
{
    (map_place(a, f), map_place(b, f), map_place(c, f))
}

// The result for the value, if present.
fn map_place<T, B, F: FnMut(T) -> B>(place: Option<T>, f: &mut F) -> Option<B>
    requires { F.IsAlwaysCallable f.old }
    ensures called { CallsAt (λ p x y q. F.step p x y q) f.old place result f.new }
    ensures again { F.IsAlwaysCallable f.new }
{
    match place {
        Some(value) => Some(f(value)),
        None => None,
    }
}

// The results for three values, each if present.
fn try_map_three<T: Drop, B: Drop, E, F: FnMut(T) -> Result<B, E>>(
    a: Option<T>,
    b: Option<T>,
    c: Option<T>,
    f: &mut F,
) -> Result<(Option<B>, Option<B>, Option<B>), E>
    requires { F.IsAlwaysCallable f.old }
    ensures ok { IfOk result (λ y. CallsEach (λ p x y q. F.step p x (Ok y) q) f.old (a ∷ b ∷ c ∷ []) (y.0 ∷ y.1 ∷ y.2 ∷ []) f.new) }
    ensures err { IfErr result (λ e. StopsAt (λ p x y q. F.step p x y q) f.old (a ∷ b ∷ c ∷ []) e f.new) }
    ensures again { F.IsAlwaysCallable f.new }
{
    Ok((
        try_map_place(a, f)?,
        try_map_place(b, f)?,
        try_map_place(c, f)?,
    ))
}

// The result for the value, if present.
fn try_map_place<T, B, E, F: FnMut(T) -> Result<B, E>>(
    place: Option<T>,
    f: &mut F,
) -> Result<Option<B>, E>
    requires { F.IsAlwaysCallable f.old }
    ensures ok { IfOk result (λ y. CallsAt (λ p x y q. F.step p x (Ok y) q) f.old place y f.new) }
    ensures err { IfErr result (λ e. RefusesAt (λ p x y q. F.step p x y q) f.old place e f.new) }
    ensures again { F.IsAlwaysCallable f.new }
{
    match place {
        Some(value) => Ok(Some(f(value)?)),
        None => Ok(None),
    }
}
