//! Clones of elements.

ghost use Rattle.std.specs.Prelude.{◌≡◌, IfOk, IsOk};
ghost use Rattle.icu_plurals.specs.Elements.{AreClones};
ghost use Rattle.plural_base.specs.FiveRules.{Paired};

use super::PluralElements;
use std::alloc::AllocError;

impl<T: Clone> PluralElements<T> {
    /// Returns a clone of each value at its key. It allocates if clones of the values do; the only
    /// error is out of memory, and there is none if clones of `T` never fail. It equals what was
    /// cloned if clones of `T` equal their sources.
    ///
    /// <!-- snippet crates/example_calls/src/calls/closures.rt: fn print_cloned; fn print_clone -->
    /// ```
    /// fn print_cloned(rt: &HostRuntime, alloc: Global) -> anyhow::Result<()> {
    ///     let texts = PluralElements::new(format!(in alloc; "files")?);
    ///     print_clone(rt, &texts)
    /// }
    ///
    /// fn print_clone(rt: &HostRuntime, texts: &PluralElements<String>) -> anyhow::Result<()> {
    ///     let is_equal = texts.try_clone()? == *texts;
    ///     println!(rt; "{is_equal}")?;
    ///     Ok(())
    /// }
    /// ```
    ///
    /// This prints
    ///
    /// <!-- snippet crates/example_calls/stdout: section try_clone -->
    /// ```text
    /// true
    /// ```
    pub fn try_clone(&self) -> Result<PluralElements<T>, AllocError>
        ensures clones { IfOk result (λ e. AreClones T.is_clone self.now e) }
        ensures same { ((x : T) (y : T) → T.is_clone x y → y ≡ x) → IfOk result (λ e. e ≡ self.now) }
        ensures succeeds { ((x : T) → T.is_infallible x) → IsOk result }
    {
        Ok(PluralElements {
            other: self.other.clone()?,
            zero: cloned(&self.zero)?,
            one: cloned(&self.one)?,
            two: cloned(&self.two)?,
            few: cloned(&self.few)?,
            many: cloned(&self.many)?,
            explicit_zero: cloned(&self.explicit_zero)?,
            explicit_one: cloned(&self.explicit_one)?,
        })
    }
}

// A clone of the value, if present.
fn cloned<T: Clone>(place: &Option<T>) -> Result<Option<T>, AllocError>
    ensures clone { IfOk result (λ s. Paired T.is_clone place.now s) }
    ensures same { ((x : T) (y : T) → T.is_clone x y → y ≡ x) → IfOk result (λ s. s ≡ place.now) }
    ensures succeeds { ((x : T) → T.is_infallible x) → IsOk result }
{
    match place {
        Some(value) => Ok(Some(value.clone()?)),
        None => Ok(None),
    }
}
