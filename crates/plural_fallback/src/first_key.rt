//! The first key along a chain.

ghost use Rattle.std.specs.Prelude.{IfOk, IfErr};
ghost use Rattle.plural_fallback.specs.Chain.{next_of};
ghost use Rattle.plural_fallback.specs.FirstKeys.{key_at, locale_at, IsFirstKey, Misses};

use crate::chain::next_locale;
use crate::error::FallbackError;
use crate::locales::{Locales, Part};

/// How many locales of a chain are looked up at most.
pub const MOST_LOCALES: usize = 32;

/// Returns the key of the first locale of a chain that has one in this part.
/// [`FallbackError::NotFound`] if the chain ends before, [`FallbackError::LongChain`] if it goes on
/// after [`MOST_LOCALES`] locales without a key. It allocates nothing.
pub fn find_first<'a, L: Locales>(
    locales: &'a L,
    part: Part,
    locale: &str,
) -> Result<&'a str, FallbackError>
    // No locale before has a key.
    ensures ok { IfOk result (λ key. IsFirstKey MOST_LOCALES
        (key_at (L.keys locales.now part) (next_of (L.parent locales.now)) locale.now) key.now) }
    ensures err { IfErr result (Misses MOST_LOCALES (locale_at (next_of (L.parent locales.now)) locale.now)
        (key_at (L.keys locales.now part) (next_of (L.parent locales.now)) locale.now) (λ _. ⊥)) }
{
    let mut current = locale.as_bytes();
    let mut steps = 0;
    while steps < MOST_LOCALES {
        if let Some(key) = locales.find_key(part, current) {
            return Ok(key);
        }
        let Some(next) = next_locale(locales, current) else {
            return Err(FallbackError::NotFound);
        };
        current = next;
        steps += 1;
    }
    Err(FallbackError::LongChain)
}
