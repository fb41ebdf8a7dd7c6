//! Rules of texts that were read a short while ago.

ghost use Rattle.std.specs.Prelude.{◌≡◌, ◌≢◌, ◌-◌, ◌≤◌, ◌∷◌, ◌++◌, [], All, Contains, IfNone, IfSome, OnOk, drop, length, map};
ghost use Rattle.plural_base.specs.Inner.JsonSteps.{GivesThis, kept_rule};

use plural_runtime::Rule;
use std::alloc::{AllocError, Global};
use std::collections::VecDeque;
use std::marker::Model;

// How many rules are kept. CLDR 48 has 55 texts of rules, and half of them stand in one language each.
const MOST: usize = 64;

// A text and its rule.
#[derive(Drop)]
struct KnownRule<'a> {
    text: &'a str,
    rule: Rule<'static>,
}

// The rules that were read last: in a document many locales have the same texts. Contracts see a
// list of the texts and their rules, the oldest first.
#[derive(Drop)]
pub(crate) struct KnownRules<'a> {
    rules: VecDeque<KnownRule<'a>>,
}

impl<'a> Model for KnownRules<'a> {
    ghost use Rattle.std.specs.Prelude.{ℕ, ◌≤◌, List, All, length, map};
    ghost use Rattle.plural_base.specs.Inner.JsonSteps.{GivesThis, kept_rule};
    ghost use Rattle.plural_runtime.specs.PackedRelations.{PackedRelation};

    ghost Value = { List (List ℕ × List PackedRelation) };

    ghost view = { λ known. map kept_rule known.rules.items };

    ghost invariant = { λ known. All (λ entry. GivesThis entry.0 entry.1) (map kept_rule known.rules.items) × (length known.rules.items ≤ 64) };
}

impl<'a> KnownRules<'a> {
    // No rules.
    pub(crate) fn new(alloc: Global) -> KnownRules<'a>
        ensures { result ≡ [] }
    {
        KnownRules {
            rules: VecDeque::new(alloc),
        }
    }

    // The rule of a text, if it is kept.
    pub(crate) fn get(&self, text: &str) -> Option<&Rule<'static>>
        ensures given { IfSome result (λ rule. GivesThis text.now rule.now) }
        ensures kept { IfSome result (λ rule. Contains self.now (text.now, rule.now)) }
        ensures none { IfNone result (All (λ entry. entry.0 ≢ text.now) self.now) }
    {
        let (older, later) = self.rules.as_slices();
        match rule_among(later, text) {
            Some(rule) => Some(rule),
            None => rule_among(older, text),
        }
    }

    // Keeps the rule of a text, in place of the oldest one if there are 64.
    pub(crate) fn keep(&mut self, text: &'a str, rule: Rule<'static>) -> Result<(), AllocError>
        requires { GivesThis text.now rule }
        // The last 64 of those before and this one.
        ensures { OnOk result (self.new ≡ drop (length self.old - 63) (self.old ++ (text.entry.now, rule.entry) ∷ [])) }
    {
        make_room(&mut self.rules);
        self.rules.push_back(KnownRule { text, rule })?;
        Ok(())
    }
}

// The rule of a text, if it is among these.
fn rule_among<'k>(entries: &'k [KnownRule<'_>], text: &str) -> Option<&'k Rule<'static>>
    ensures kept { IfSome result (λ rule. Contains (map kept_rule entries.now) (text.now, rule.now)) }
    ensures none { IfNone result (All (λ entry. entry.0 ≢ text.now) (map kept_rule entries.now)) }
{
    for known in entries {
        if known.text == text {
            return Some(&known.rule);
        }
    }
    None
}

// Makes room for one more: the oldest one goes if there are 64.
fn make_room(rules: &mut VecDeque<KnownRule<'_>>)
    requires { length rules.old.items ≤ 64 }
    ensures { rules.new.items ≡ drop (length rules.old.items - 63) rules.old.items }
{
    if rules.len() == MOST {
        drop(rules.pop_front());
    }
}
