//! A plural rule as checked bytes.

ghost use Rattle.std.specs.Prelude.{◌≡◌, List, map, length, slice_get, option_map, IfOk, IsTrue, ◌==◌};
ghost use Rattle.std.specs.List.{list_all};
ghost use Rattle.plural_runtime.specs.PackedRelations.{RuleBytes, relation_bytes, is_relation};
ghost use Rattle.plural_runtime.specs.Inner.RuleReading.{AreRuleBytes, relation_in};
ghost use Rattle.plural_runtime.specs.Inner.RuleViews.{item_relation};

use crate::laws::one_encoding;
use crate::relation::RelationULE;
use crate::relations::Relations;
use packed_list::PackedList;
use packed_list::laws::read_again;
use std::alloc::AllocError;
use std::borrow::CowSlice;
use std::marker::Model;

/// A plural rule, as checked bytes that are borrowed or owned.
///
/// The bytes are a packed list, each item of which is a relation: its first byte, its modulus (0
/// for none) and both ends of its ranges, each number in four bytes with the low byte first.
///
/// <!-- snippet crates/example_calls/src/bytes.rt: "let packed" to "let bytes" of fn show_stored_rule; "let one" to "let one" of fn stored -->
/// ```
/// let packed = Rule::from_str(alloc, "i = 1 and v = 0")?;
/// let bytes = packed.as_bytes();
///
/// let one = Rule::parse_bytes(bytes)?;
/// ```
#[derive(Debug)]
pub struct Rule<'data> {
    bytes: CowSlice<'data, u8>,
}

// Written out, so that each end of a value is one call.
impl Drop for Rule<'_> {
    fn drop(self) {
        let Rule { bytes: _ } = self;
    }
}

impl<'data> Model for Rule<'data> {
    ghost use Rattle.std.specs.Prelude.{List};
    ghost use Rattle.std.specs.Cow.{cow_slice_items};
    ghost use Rattle.plural_runtime.specs.PackedRelations.{PackedRelation};

    ghost Value = { List PackedRelation };

    ghost use Rattle.plural_runtime.specs.Inner.RuleReading.{relations_in, AreRuleBytes};

    ghost view = { λ rule. relations_in (cow_slice_items rule.bytes) };

    ghost invariant = { λ rule. AreRuleBytes (cow_slice_items rule.bytes) };
}

impl<'data> Rule<'data> {
    // The rule in bytes that are known to be one.
    pub(crate) fn lent(bytes: &'data [u8]) -> Rule<'data>
        requires { AreRuleBytes bytes.now }
        ensures { RuleBytes result bytes.now }
    {
        Rule {
            bytes: CowSlice::Borrowed(bytes),
        }
    }

    // The rule in owned bytes that are known to be one.
    pub(crate) fn owned(bytes: Vec<u8>) -> Rule<'data>
        requires { AreRuleBytes bytes.items }
        ensures { RuleBytes result bytes.items }
    {
        Rule {
            bytes: CowSlice::Owned(bytes),
        }
    }

    /// Returns the bytes of the rule.
    #[inline]
    pub fn as_bytes(&self) -> &[u8]
        ensures { RuleBytes self.now result.now }
    {
        self.bytes.as_slice()
    }

    /// Returns the number of relations.
    #[inline]
    pub fn len(&self) -> usize
        ensures { result ≡ length self.now }
    {
        self.list().len()
    }

    /// Returns whether it has no relation.
    #[inline]
    pub fn is_empty(&self) -> bool
        ensures { result ≡ (length self.now == 0) }
    {
        self.len() == 0
    }

    /// Returns the relation at a place.
    #[inline]
    pub fn get(&self, index: usize) -> Option<RelationULE<'_>>
        ensures { option_map item_relation result ≡ slice_get self.now index }
    {
        let list = self.list();
        let item = list.get(index)?;
        Some(RelationULE::from_checked(item))
    }

    /// Returns the relations, from the first one on.
    #[inline]
    pub fn iter(&self) -> Relations<'_>
        ensures { result ≡ self.now }
    {
        Relations::of(self.list().iter())
    }

    /// Returns the same rule, borrowed from this one.
    pub fn as_borrowed(&self) -> Rule<'_>
        ensures { result ≡ self.now }
    {
        Rule {
            bytes: CowSlice::Borrowed(self.bytes.as_slice()),
        }
    }

    /// Returns a rule of the same bytes: borrowed if this one is borrowed, otherwise a copy. The
    /// only error is out of memory.
    pub fn try_clone(&self) -> Result<Rule<'data>, AllocError>
        ensures { IfOk result (λ rule. rule ≡ self.now) }
    {
        Ok(Rule {
            bytes: self.bytes.clone()?,
        })
    }

    // The items that the relations are packed in.
    #[inline]
    #[tactic(auto, unfolding(crate::specs::Inner::RuleReading::relations_in))]
    pub(crate) fn list(&self) -> PackedList<'_>
        ensures relations { map relation_in result ≡ self.now }
        ensures items { IsTrue (list_all is_relation result) }
        ensures packed { map relation_bytes self.now ≡ result }
    {
        read_again();
        PackedList::from_checked(self.bytes.as_slice())
    }
}

impl<'data> PartialEq for Rule<'data> {
    ghost use Rattle.std.specs.Prelude.{◌≡◌, ◌↔◌, IsTrue, nat_eq};
    ghost use Rattle.std.specs.Cmp.{on_per, partial_equiv_from_equiv};
    ghost use Rattle.std.specs.Cmp.Lexicographic.{pointwise, nat_list_eq_equiv};
    ghost use Rattle.plural_runtime.specs.PackedRelations.{packed_bytes};

    ghost eq = { λ rule other. pointwise nat_eq (packed_bytes rule) (packed_bytes other) };

    ghost laws = { on_per packed_bytes (partial_equiv_from_equiv nat_list_eq_equiv) };

    fn eq(&self, other: &Self) -> bool
        ensures same { result ≡ pointwise nat_eq (packed_bytes self.now) (packed_bytes other.now) }
        ensures equal { IsTrue result ↔ (self.now ≡ other.now) }
    {
        one_encoding();
        self.as_bytes() == other.as_bytes()
    }
}
