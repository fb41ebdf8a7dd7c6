//! The values of packed elements, read in place.

ghost use Rattle.std.specs.Prelude.{◌≡◌, IsTrue};
ghost use Rattle.std.specs.List.{list_all};
ghost use Rattle.icu_plurals.specs.Inner.ElementsReading.{is_item};

use crate::elements::PluralElements;
use crate::packed::keys;
use crate::packed::metadata::FourBitMetadata;
use crate::packed::parts::parts_of;
use crate::packed::value::{find_value, keyed_value, put_value, value_of};
use packed_list::PackedList;
use packed_list::laws::read_again;
use plural_base::PluralCategory;
use plural_reference::PluralOperands;

// The default and the list of the items after it, in checked bytes.
#[derive(Drop)]
pub(crate) struct Values<'a> {
    pub(crate) default: (FourBitMetadata, &'a str),
    items: PackedList<'a>,
    ghost good: { IsTrue (list_all is_item items) },
}

impl<'a> Values<'a> {
    ghost use Rattle.std.specs.Prelude.{option_map};
    ghost use Rattle.icu_plurals.specs.Elements.{each_by, explicit_at, of_category};
    ghost use Rattle.icu_plurals.specs.PackedElements.{elements_of};
    ghost use Rattle.icu_plurals.specs.Inner.ElementsReading.{AreElements, read_elements};
    ghost use Rattle.icu_plurals.specs.Inner.ElementsViews.{lent_value, lent_values};

    // The values in checked bytes.
    #[inline]
    pub(crate) fn of_checked(bytes: &'a [u8]) -> Values<'a>
        requires { AreElements bytes.now }
        ensures { lent_values result ≡ elements_of (read_elements bytes.now) }
    {
        read_again();
        let parts = parts_of(bytes).unwrap();
        Values {
            default: value_of(parts.first, parts.text),
            items: PackedList::from_checked(parts.rest.unwrap_or(&[])),
        }
    }

    // All of them by key, in one walk over the items.
    pub(crate) fn by_key(&self) -> PluralElements<(FourBitMetadata, &'a str)>
        ensures { each_by lent_value result ≡ lent_values self.now }
    {
        let mut elements = PluralElements::new(self.default);
        for item in self.items.iter() {
            let (key, value) = keyed_value(item);
            put_value(&mut elements, key, value);
        }
        elements
    }

    // The explicit value for exactly 0 or 1, if present.
    pub(crate) fn explicit_at(&self, op: PluralOperands) -> Option<(FourBitMetadata, &'a str)>
        ensures { option_map lent_value result ≡ explicit_at (lent_values self.now) op }
    {
        if op.is_exactly_zero() {
            find_value(&self.items, keys::EXPLICIT_ZERO)
        } else if op.is_exactly_one() {
            find_value(&self.items, keys::EXPLICIT_ONE)
        } else {
            None
        }
    }

    // The value of a category, or the default.
    pub(crate) fn of_category(&self, category: PluralCategory) -> (FourBitMetadata, &'a str)
        ensures { lent_value result ≡ of_category (lent_values self.now) category }
    {
        let Some(key) = keys::key_of(category) else {
            return self.default;
        };
        match find_value(&self.items, key) {
            Some(value) => value,
            None => self.default,
        }
    }
}
