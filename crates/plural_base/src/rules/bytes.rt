//! The rules of a language as one block of bytes.

ghost use Rattle.std.specs.Prelude.{◌≡◌, ◌≢◌, ◌↔◌, ◌≤◌, IfOk, MatchResult, Err, IsTrue, length};
ghost use Rattle.packed_list.specs.ListBytes.{CanPack, has_high_start};
ghost use Rattle.plural_base.specs.FiveRules.{FiveRules, rules_of};
ghost use Rattle.plural_base.specs.RulesBytes.{HasRulesFault, RulesBytes, rule_items};
ghost use Rattle.plural_base.specs.Inner.KeyedItems.{lent_items};

pub(crate) mod error;
mod items;
mod keyed;

use crate::laws::rules_have_one_encoding;
use crate::rules::bytes::error::{RulesBytesError, RulesPackError};
use crate::rules::bytes::items::{RuleItem, items_of};
use crate::rules::bytes::keyed::rules_in;
use crate::rules::data::PluralRulesData;
use packed_list::{ListWriter, PackedList};
use std::alloc::Global;

impl<'data> PluralRulesData<'data> {
    /// Returns the bytes of the rules, made by one allocation: a packed list of the rules that are
    /// present, each after the byte of its key, 0 zero, 1 one, 2 two, 3 few, 4 many. No rules are
    /// no bytes.
    ///
    /// For example:
    ///
    /// <!-- snippet crates/example_calls/src/calls/rules.rt:
    ///      fn stored -->
    /// ```
    /// fn stored(alloc: Global) -> anyhow::Result<Vec<u8>> {
    ///     let (one, few) = (Some("n = 1"), Some("n = 2"));
    ///     let data = PluralRulesData::from_texts(alloc, None, one, None, few, None)?;
    ///     Ok(data.to_bytes(alloc)?)
    /// }
    /// ```
    ///
    /// The errors: a rule would start after place 65535 of the data
    /// ([`RulesPackError::StartLimit`]), which is looked for first; out of memory
    /// ([`RulesPackError::Memory`]).
    pub fn to_bytes(&self, alloc: Global) -> Result<Vec<u8>, RulesPackError>
        ensures ok { IfOk result (λ bytes. RulesBytes (rules_of self.now) bytes.items) }
        ensures start_limit { (result ≡ Err RulesPackError.StartLimit) ↔ IsTrue (has_high_start (rule_items (rules_of self.now))) }
    {
        let items = items_of(self);
        let list = list_of(items.as_slice())?;
        Ok(list.to_bytes(alloc)?)
    }

    /// Returns the rules in these bytes, borrowed from them. It allocates nothing.
    ///
    /// <!-- snippet crates/example_calls/src/calls/rules.rt: fn stored; "let bytes" to "let stored" of fn show_stored_rules; body of fn print_stored_rules -->
    /// ```
    /// fn stored(alloc: Global) -> anyhow::Result<Vec<u8>> {
    ///     let (one, few) = (Some("n = 1"), Some("n = 2"));
    ///     let data = PluralRulesData::from_texts(alloc, None, one, None, few, None)?;
    ///     Ok(data.to_bytes(alloc)?)
    /// }
    ///
    /// let bytes = stored(alloc)?;
    /// let stored = PluralRules::from_data(PluralRulesData::from_bytes(&bytes)?);
    ///
    /// for number in [0u8, 1, 2] {
    ///     let category = stored.category_for(PluralOperands::from(number));
    ///     println!(rt; "{number}: {category:?}")?;
    /// }
    /// ```
    ///
    /// This prints
    ///
    /// <!-- snippet crates/example_calls/stdout: section rules as bytes -->
    /// ```text
    /// 0: Other
    /// 1: One
    /// 2: Few
    /// ```
    ///
    /// The error is that the bytes aren't a packed list ([`RulesBytesError::List`]), or the fault
    /// of the first bad item: it has no byte ([`RulesBytesError::ItemEmpty`]); its key is above 4,
    /// or not above the key of the item before it ([`RulesBytesError::Key`]); what follows isn't a
    /// rule, as [`Rule::parse_bytes`] tells ([`RulesBytesError::Rule`]).
    ///
    /// [`Rule::parse_bytes`]: plural_runtime::Rule::parse_bytes
    #[inline(always)]
    pub fn from_bytes(bytes: &'data [u8]) -> Result<PluralRulesData<'data>, RulesBytesError>
        ensures ok { IfOk result (λ found. RulesBytes (rules_of found) bytes.now) }
        ensures accepted { (rules : FiveRules) → RulesBytes rules bytes.now
            → MatchResult result (λ found. rules_of found ≡ rules) (λ _. ⊥) }
        ensures refused { (fault : RulesBytesError) → (result ≡ Err fault) ↔ HasRulesFault bytes.now fault }
    {
        rules_have_one_encoding();
        let list = match PackedList::parse_bytes(bytes) {
            Ok(list) => list,
            Err(fault) => return Err(RulesBytesError::List(fault)),
        };
        rules_in(list)
    }
}

// The list of the items, if no start is too high.
fn list_of<'a, 'b>(
    items: &'b [RuleItem<'a>],
) -> Result<ListWriter<&'b [RuleItem<'a>]>, RulesPackError>
    requires { length items.now ≤ 5 }
    ensures list { IfOk result (λ list. list ≡ lent_items items.now) }
    ensures starts { IfOk result (λ _. CanPack (lent_items items.now)) }
    ensures start_limit { (result ≡ Err RulesPackError.StartLimit) ↔ IsTrue (has_high_start (lent_items items.now)) }
    ensures memory { result ≢ Err RulesPackError.Memory }
{
    match ListWriter::new(items) {
        Ok(list) => Ok(list),
        Err(_) => Err(RulesPackError::StartLimit),
    }
}
