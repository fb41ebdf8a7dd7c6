//! A provider of rules for English only.

use icu_plurals::provider::{PluralRanges, PluralRulesData};
use icu_plurals::{DataError, PluralCategory, PluralOperands, PluralRules, PluralsProvider};
use std::alloc::Global;

#[derive(Drop)]
pub struct English {
    pub cardinal: PluralRulesData<'static>,
}

impl PluralsProvider for English {
    ghost use Rattle.std.specs.Prelude.{Some, None, codes, if◌then◌else◌};
    ghost use Rattle.std.specs.Str.{bytes_eq};
    ghost use Rattle.icu_plurals.specs.FiveRules.{rules_of};

    ghost cardinal = { λ english locale. if bytes_eq locale (codes "en") then Some (rules_of english.cardinal) else None };

    ghost ordinal = { λ english locale. None };

    ghost ranges = { λ english locale. None };

    fn load_cardinal(&self, locale: &str) -> Result<PluralRulesData<'_>, DataError> {
        if locale == "en" {
            Ok(self.cardinal.as_borrowed())
        } else {
            Err(DataError::NotFound)
        }
    }

    fn load_ordinal(&self, _locale: &str) -> Result<PluralRulesData<'_>, DataError> {
        Err(DataError::NotFound)
    }

    fn load_ranges(&self, _locale: &str) -> Result<PluralRanges, DataError> {
        Err(DataError::NotFound)
    }
}

// Prints a category by the provider's rules, and that no other locale stands in.
pub(crate) fn show_english(rt: &HostRuntime, alloc: Global) -> anyhow::Result<()> {
    let one = Some("i = 1 and v = 0");
    let english = English {
        cardinal: PluralRulesData::from_texts(alloc, None, one, None, None, None)?,
    };
    print_english(rt, &english)
}

fn category_in(english: &English, locale: &str) -> Result<PluralCategory, DataError> {
    let rules = PluralRules::try_new_cardinal_unstable(english, locale)?;
    Ok(rules.category_for(PluralOperands::from(1u8)))
}

fn print_english(rt: &HostRuntime, english: &English) -> anyhow::Result<()> {
    for locale in ["en", "en-GB"] {
        match category_in(english, locale) {
            Ok(category) => println!(rt; "{category:?}")?,
            Err(error) => println!(rt; "{error}")?,
        }
    }
    Ok(())
}
