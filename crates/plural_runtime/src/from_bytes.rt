//! Reads bytes as a rule.

ghost use Rattle.std.specs.Prelude.{◌≡◌, ◌↔◌, ◌≤◌, List, length, IfOk, IsTrue, IsFalse, Ok, Err};
ghost use Rattle.plural_runtime.specs.PackedRelations.{PackedRelation, RuleBytes, HasRuleFault, relation_fault, first_relation_fault};
ghost use Rattle.plural_runtime.specs.Inner.RuleReading.{AreRuleBytes};

use crate::error::RuleBytesError;
use crate::first_byte::operand_of;
use crate::item::{HEAD_LENGTH, RANGE_LENGTH};
use crate::rule::Rule;
use packed_list::laws::{item_bytes, no_fault, read_again};
use packed_list::{ItemTest, PackedList};

impl<'data> Rule<'data> {
    /// Reads bytes as a rule. It allocates nothing.
    ///
    /// The error is that the bytes aren't a packed list ([`RuleBytesError::List`]), or the fault of
    /// the first bad item: its length isn't 5 plus a multiple of 8
    /// ([`RuleBytesError::ItemLength`]), or its first byte names no operand
    /// ([`RuleBytesError::Operand`]).
    ///
    /// Rows of refused bytes and their fault:
    ///
    /// <!-- snippet crates/tests_libraries/src/tests/plural_runtime_examples.rt:
    /// example "(b"\x01\0", RuleBytesError" to "(b"\x01\0\xc8" of fn refuses_bytes; example "for (bytes"
    /// to "}" of fn refuses_bytes -->
    /// ```
    /// (b"\x01\0", RuleBytesError::ItemLength(0)),
    /// (b"\x03\0\x02\0\x02\0abcd", RuleBytesError::ItemLength(0)),
    /// (b"\x01\0\xc8\0\0\0\0", RuleBytesError::Operand(0)),
    ///
    /// for (bytes, fault) in rows {
    ///     let refused = Rule::parse_bytes(bytes);
    ///     assert!(rt; matches!(refused, Err(found) if found == fault));
    /// }
    /// ```
    pub fn parse_bytes(bytes: &'data [u8]) -> Result<Rule<'data>, RuleBytesError>
        ensures ok { IfOk result (λ rule. RuleBytes rule bytes.now) }
        ensures accepted { (relations : List PackedRelation) → RuleBytes relations bytes.now → result ≡ Ok relations }
        ensures refused { (fault : RuleBytesError) → (result ≡ Err fault) ↔ HasRuleFault bytes.now fault }
    {
        read_again();
        no_fault();
        if is_rule(bytes) {
            Ok(Rule::lent(bytes))
        } else {
            Err(fault_in(bytes))
        }
    }
}

// The test of the items of a rule: 5 bytes more than whole ranges, and an operand in the first one.
struct RelationTest;

impl ItemTest for RelationTest {
    ghost use Rattle.plural_runtime.specs.PackedRelations.{is_relation};

    ghost passing = { is_relation };

    #[inline(always)]
    fn passes(item: &[u8]) -> bool {
        item.len() % RANGE_LENGTH == HEAD_LENGTH && item[0] % 64 <= 7
    }
}

// Whether bytes are a rule. Each start is read once.
#[inline]
fn is_rule(bytes: &[u8]) -> bool
    ensures rule { IsTrue result → AreRuleBytes bytes.now }
    ensures other { IsFalse result → (relations : List PackedRelation) → RuleBytes relations bytes.now → ⊥ }
{
    read_again();
    item_bytes();
    match PackedList::parse_passing::<RelationTest>(bytes) {
        Some(_) => true,
        None => false,
    }
}

// What is wrong with bytes that aren't a rule.
#[cold]
fn fault_in(bytes: &[u8]) -> RuleBytesError
    requires { (relations : List PackedRelation) → RuleBytes relations bytes.now → ⊥ }
    ensures { (fault : RuleBytesError) → (result ≡ fault) ↔ HasRuleFault bytes.now fault }
{
    read_again();
    item_bytes();
    let list = match PackedList::parse_bytes(bytes) {
        Ok(list) => list,
        Err(fault) => return RuleBytesError::List(fault),
    };
    match first_fault_of(&list) {
        Some(fault) => fault,
        None => unreachable!(),
    }
}

// What is wrong with the first bad item.
fn first_fault_of(list: &PackedList<'_>) -> Option<RuleBytesError>
    requires { length list.now ≤ 65535 }
    ensures { result ≡ first_relation_fault 0 list.now }
{
    for (place, item) in list.iter().enumerate() {
        let fault = fault_of(place, item);
        if fault.is_some() {
            return fault;
        }
    }
    None
}

// What is wrong with the item at a place.
fn fault_of(place: usize, item: &[u8]) -> Option<RuleBytesError>
    ensures { result ≡ relation_fault place item.now }
{
    if item.len() < HEAD_LENGTH || (item.len() - HEAD_LENGTH) % RANGE_LENGTH != 0 {
        Some(RuleBytesError::ItemLength(place))
    } else if operand_of(item[0]).is_none() {
        Some(RuleBytesError::Operand(place))
    } else {
        None
    }
}
