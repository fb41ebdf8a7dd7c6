//! Types that have plural rules.

use crate::rules::PluralRules;

/// A type that has plural rules, as [`PluralRules`] itself or a reference to it.
///
/// An implementation names its rules by the ghost member `rules`, a function from the value to five
/// rules, as which [`PluralRules`] are seen. So a type that gives rules a name is
///
/// <!-- snippet crates/example_calls/src/named.rt: struct Named; impl AsPluralRules<'data> for Named<'data> -->
/// ```
/// #[derive(Drop)]
/// pub struct Named<'data> {
///     pub name: &'static str,
///     pub rules: PluralRules<'data>,
/// }
///
/// impl<'data> AsPluralRules<'data> for Named<'data> {
///     ghost rules = { λ named. named.rules };
///
///     fn as_plural_rules(&self) -> &PluralRules<'data> {
///         &self.rules
///     }
/// }
/// ```
pub trait AsPluralRules<'data> {
    ghost use Rattle.std.specs.Prelude.{◌≡◌};
    ghost use Rattle.plural_base.specs.FiveRules.{FiveRules};

    // The rules that it has.
    ghost rules: { Self → FiveRules };

    /// Returns the rules, borrowed.
    fn as_plural_rules(&self) -> &PluralRules<'data>
        ensures { result.now ≡ rules self.now };
}

impl<'data> AsPluralRules<'data> for PluralRules<'data> {
    ghost rules = { λ rules. rules };

    fn as_plural_rules(&self) -> &PluralRules<'data> {
        self
    }
}

impl<'data> AsPluralRules<'data> for &PluralRules<'data> {
    ghost rules = { λ rules. rules.now };

    fn as_plural_rules(&self) -> &PluralRules<'data> {
        self
    }
}
