//! Which categories a language has, as far as the files of it need that.

use icu_plurals::provider::PluralRulesData;
use icu_plurals::{PluralCategory, PluralOperands, PluralRuleType, PluralRules};
use message_report::RulesOfLocales;

// How many whole numbers are asked for their category.
const MOST_NUMBERS: u16 = 200;

// What a language has of a category that is named after a number: zero, one or two.
#[derive(Clone, Copy, PartialEq, Eq)]
pub(crate) enum Named {
    // No such category.
    Lacking,
    // That of this number alone, or it isn't known.
    Alone,
    // That of other numbers, too.
    Shared,
}

// What a language has: a zero, a one and a two of its own, and other categories than other.
#[derive(Clone, Copy)]
pub(crate) struct Spoken {
    pub(crate) zero: Named,
    pub(crate) one: Named,
    pub(crate) two: Named,
    pub(crate) has_more: bool,
}

// What a language has; one that isn't known may have all.
pub(crate) fn spoken_by<S: RulesOfLocales>(rules: &S, locale: &str) -> Spoken {
    match rules.rules_of(PluralRuleType::Cardinal, locale) {
        Some(data) => spoken_of(data),
        None => Spoken {
            zero: Named::Alone,
            one: Named::Alone,
            two: Named::Alone,
            has_more: true,
        },
    }
}

// What the language of these rules has.
fn spoken_of(data: PluralRulesData<'_>) -> Spoken {
    let (has_zero, has_one) = (data.zero.is_some(), data.one.is_some());
    let has_two = data.two.is_some();
    let has_more = has_zero || (has_one || has_two);
    let has_more = has_more || (data.few.is_some() || data.many.is_some());
    let rules = PluralRules::from_data(data);
    let spoken = Spoken {
        zero: kept_by(&rules, has_zero, PluralCategory::Zero, 0),
        one: kept_by(&rules, has_one, PluralCategory::One, 1),
        two: kept_by(&rules, has_two, PluralCategory::Two, 2),
        has_more,
    };
    drop(rules);
    spoken
}

// What a language has of the category of a number, given whether it has it.
fn kept_by(rules: &PluralRules<'_>, is_there: bool, category: PluralCategory, own: u16) -> Named {
    if !is_there {
        return Named::Lacking;
    }
    for number in 0..MOST_NUMBERS {
        if number != own && rules.category_for(PluralOperands::from(number)) == category {
            return Named::Shared;
        }
    }
    Named::Alone
}
