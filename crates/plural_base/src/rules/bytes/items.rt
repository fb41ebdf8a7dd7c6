//! The items that rules are packed as.

ghost use Rattle.std.specs.Prelude.{◌≡◌, ◌+◌, ◌++◌, ◌<◌, ◌≤◌};
ghost use Rattle.arrayvec.specs.ArrayVec.{array_vec_len};
ghost use Rattle.plural_base.specs.FiveRules.{rules_of};
ghost use Rattle.plural_base.specs.RulesBytes.{CanPackRule, CanPackRules, keyed, rule_items};
ghost use Rattle.plural_base.specs.Inner.KeyedItems.{lent_item, lent_items};

use crate::for_five;
use crate::rules::data::PluralRulesData;
use arrayvec::ArrayVec;
use packed_list::ByteItem;
use plural_runtime::Rule;
use std::alloc::AllocError;

// The item of a rule: its key and its bytes.
#[derive(Clone, Copy, Default)]
pub(crate) struct RuleItem<'a> {
    pub(crate) key: u8,
    pub(crate) bytes: &'a [u8],
}

impl<'a> ByteItem for RuleItem<'a> {
    ghost item_bytes = { lent_item };

    #[inline]
    fn byte_count(&self) -> usize {
        1 + self.bytes.len()
    }

    #[inline]
    fn write_to(&self, bytes: &mut Vec<u8>) -> Result<(), AllocError> {
        bytes.push(self.key)?;
        bytes.extend_from_slice(self.bytes)
    }
}

// The items of the rules that are present, in the order of their keys.
pub(crate) fn items_of<'a>(rules: &'a PluralRulesData<'_>) -> ArrayVec<RuleItem<'a>, 5>
    ensures bytes { lent_items result.items ≡ rule_items (rules_of rules.now) }
    ensures can_pack { CanPackRules (rules_of rules.now) }
{
    let mut items = ArrayVec::new();
    for_five!(rules, |rule, category| {
        push_rule(&mut items, category as u8, rule);
    });
    items
}

// Puts the item of a rule, if present.
fn push_rule<'a>(items: &mut ArrayVec<RuleItem<'a>, 5>, key: u8, rule: &'a Option<Rule<'_>>)
    requires { array_vec_len items.old < 5 }
    ensures bytes { lent_items items.new.items ≡ lent_items items.old.items ++ keyed key rule.now }
    ensures can_pack { CanPackRule rule.now }
    ensures len { array_vec_len items.new ≤ array_vec_len items.old + 1 }
{
    if let Some(rule) = rule {
        items.push(RuleItem {
            key,
            bytes: rule.as_bytes(),
        });
    }
}
