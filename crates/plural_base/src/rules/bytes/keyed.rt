//! The rules in the items of a list, taken key by key.

ghost use Rattle.std.specs.Prelude.{◌≡◌, ◌↔◌, ◌+◌, ◌++◌, ◌∷◌, ◌≤◌, [], drop, Option, Some, None, IfOk, IfNone, OnOk, MatchOption, MatchResult};
ghost use Rattle.plural_base.specs.FiveRules.{five, rules_of};
ghost use Rattle.plural_base.specs.RulesBytes.{CanPackRule, CanPackRules, FirstRuleFault, keyed, rule_items};
ghost use Rattle.plural_base.specs.Inner.KeyedItems.{HasOtherKey, items_left};

use crate::put_five;
use crate::rules::bytes::error::RulesBytesError;
use crate::rules::data::PluralRulesData;
use packed_list::PackedList;
use plural_runtime::Rule;

// The rules of the items, if none of these is bad. Inlined, as are the calls in it, the rules are
// made in place: to copy them took more than to check them.
#[inline(always)]
pub(crate) fn rules_in(list: PackedList<'_>) -> Result<PluralRulesData<'_>, RulesBytesError>
    ensures can_pack { IfOk result (λ rules. CanPackRules (rules_of rules)) }
    ensures items { IfOk result (λ rules. list.entry ≡ rule_items (rules_of rules)) }
    ensures fault { (fault : Option RulesBytesError) → FirstRuleFault 0 0 list.entry fault
        ↔ MatchResult result (λ _. fault ≡ None) (λ found. fault ≡ Some found) }
{
    let mut rules = PluralRulesData::default();
    match put_rules(list, &mut rules) {
        Ok(()) => Ok(rules),
        Err(fault) => {
            drop(rules);
            Err(fault)
        }
    }
}

// Puts the rules of the items.
#[inline(always)]
fn put_rules<'data>(
    list: PackedList<'data>,
    rules: &mut PluralRulesData<'data>,
) -> Result<(), RulesBytesError>
    requires { rules_of rules.old ≡ five None None None None None }
    ensures can_pack { OnOk result (CanPackRules (rules_of rules.new)) }
    ensures items { OnOk result (list.entry ≡ rule_items (rules_of rules.new)) }
    ensures fault { (fault : Option RulesBytesError) → FirstRuleFault 0 0 list.entry fault
        ↔ MatchResult result (λ _. fault ≡ None) (λ found. fault ≡ Some found) }
{
    let mut items = KeyedRules { list, place: 0 };
    put_five!(rules, |rule, category| items.put(category as u8, rule)?);
    match items.fault() {
        None => Ok(()),
        Some(fault) => Err(fault),
    }
}

// The items of a list, from a place on.
#[derive(Drop)]
pub(crate) struct KeyedRules<'data> {
    list: PackedList<'data>,
    place: usize,
}

impl<'data> KeyedRules<'data> {
    // Puts the rule of the first item that is left, if it has this key, and takes the item. All keys
    // below this one were asked for.
    #[inline(always)]
    fn put(&mut self, key: u8, rule: &mut Option<Rule<'data>>) -> Result<(), RulesBytesError>
        requires key { key ≤ 4 }
        requires place { self.old.place ≤ key }
        requires none { rule.old ≡ None }
        ensures place { OnOk result (self.new.place ≤ key + 1) }
        ensures can_pack { OnOk result (CanPackRule rule.new) }
        ensures items { OnOk result (items_left self.old ≡ keyed key rule.new ++ items_left self.new) }
        ensures fault { (fault : Option RulesBytesError) → FirstRuleFault self.old.place key (items_left self.old) fault
            ↔ MatchResult result (λ _. FirstRuleFault self.new.place (key + 1) (items_left self.new) fault) (λ found. fault ≡ Some found) }
    {
        let Some(bytes) = self.bytes_of(key) else {
            return Ok(());
        };
        match Rule::parse_bytes(bytes) {
            Ok(found) => *rule = Some(found),
            Err(fault) => return Err(RulesBytesError::Rule(self.place, fault)),
        }
        self.place += 1;
        Ok(())
    }

    // What follows the key in the first item that is left, if it has this key.
    #[inline(always)]
    fn bytes_of(&self, key: u8) -> Option<&'data [u8]>
        ensures { MatchOption result (HasOtherKey key (items_left self.now))
            (λ bytes. items_left self.now ≡ (key ∷ bytes.now) ∷ drop (self.now.place + 1) self.now.list) }
    {
        let item = self.list.get(self.place)?;
        let (first, bytes) = item.split_first()?;
        if *first == key { Some(bytes) } else { None }
    }

    // What is wrong with the first item that is left after all keys were asked for, if any.
    #[inline]
    fn fault(&self) -> Option<RulesBytesError>
        ensures none { IfNone result (items_left self.now ≡ []) }
        ensures fault { (fault : Option RulesBytesError) → FirstRuleFault self.now.place 5 (items_left self.now) fault ↔ (fault ≡ result) }
    {
        let item = self.list.get(self.place)?;
        if item.is_empty() {
            Some(RulesBytesError::ItemEmpty(self.place))
        } else {
            Some(RulesBytesError::Key(self.place))
        }
    }
}
