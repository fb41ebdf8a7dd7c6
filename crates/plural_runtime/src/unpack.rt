//! Makes the tree of packed relations.

ghost use Rattle.std.specs.Prelude.{◌≡◌, ◌<◌, ◌++◌, ◌∷◌, [], length, map, IfOk, OnOk, None};
ghost use Rattle.plural_runtime.specs.PackedTree.{unpacked_relation, unpacked_range, unpacked_groups, unpacked};
ghost use Rattle.plural_runtime.specs.Inner.RuleViews.{lent_relation, done_before, open_before};

use crate::kinds::AndOr;
use crate::relation::Relation;
use crate::rule::Rule;
use plural_reference::{Sequence, ast};
use std::alloc::{AllocError, Global};
use std::mem;

// How many groups, and relations of a group, there is room for at first: all that most rules have.
const ROOM: usize = 4;

impl<'data> Rule<'data> {
    /// Returns the tree of the rule, without samples. The only error is out of memory.
    ///
    /// Each relation marked Or begins a new and-condition. Equal ends come back as a value, a
    /// modulus 0 as none.
    ///
    /// <!-- snippet crates/tests_libraries/src/tests/plural_runtime_examples.rt:
    /// const LONG_RULE; example "let rule" to "holds!" of fn a_condition_comes_back -->
    /// ```
    /// const LONG_RULE: &str = "n % 10 = 3..4, 9 and n % 100 != 10..19, 70..79, 90..99 or n = 0";
    ///
    /// let rule = Rule::from_str(alloc, LONG_RULE)?;
    /// let tree = rule.to_ast(alloc)?;
    /// let condition = parse_condition(alloc, LONG_RULE.as_bytes())?;
    /// assert!(rt; tree.condition == condition);
    /// ```
    pub fn to_ast(&self, alloc: Global) -> Result<ast::Rule, AllocError>
        ensures condition { IfOk result (λ tree. tree.condition ≡ unpacked self.now) }
        ensures samples { IfOk result (λ tree. tree.samples ≡ None) }
    {
        Ok(ast::Rule {
            condition: condition_of(alloc, self)?,
            samples: None,
        })
    }
}

// The condition of a rule.
fn condition_of(alloc: Global, rule: &Rule<'_>) -> Result<ast::Condition, AllocError>
    ensures { IfOk result (λ condition. condition ≡ unpacked rule.now) }
{
    if rule.is_empty() {
        return Ok(ast::Condition(Sequence(Vec::new(alloc))));
    }
    let mut groups = Vec::with_capacity(alloc, ROOM)?;
    add_groups(alloc, rule, &mut groups)?;
    Ok(ast::Condition(Sequence(groups)))
}

// Adds the groups of a rule to none.
fn add_groups(
    alloc: Global,
    rule: &Rule<'_>,
    groups: &mut Vec<ast::AndCondition>,
) -> Result<(), AllocError>
    requires some { 0 < length rule.now }
    requires none { groups.now.items ≡ [] }
    ensures { OnOk result (map (λ group. group.0) groups.new.items ≡ unpacked_groups rule.now) }
{
    let mut group = Vec::with_capacity(alloc, ROOM)?;
    for item in rule.iter() {
        add_relation(alloc, &item.as_relation(), groups, &mut group)?;
    }
    groups.push(ast::AndCondition(Sequence(group)))?;
    Ok(())
}

// Adds a relation to the open group, or to a new one.
fn add_relation(
    alloc: Global,
    relation: &Relation<'_>,
    groups: &mut Vec<ast::AndCondition>,
    group: &mut Vec<ast::Relation>,
) -> Result<(), AllocError>
    ensures groups { OnOk result (map (λ group. group.0) groups.new.items
        ≡ done_before (lent_relation relation.now).and_or (map (λ group. group.0) groups.old.items) group.old.items) }
    ensures group { OnOk result (group.new.items
        ≡ open_before (lent_relation relation.now).and_or group.old.items ++ unpacked_relation (lent_relation relation.now) ∷ []) }
{
    close_group(alloc, relation.and_or(), groups, group)?;
    group.push(relation_of(alloc, relation)?)?;
    Ok(())
}

// At Or the open group is complete.
fn close_group(
    alloc: Global,
    and_or: AndOr,
    groups: &mut Vec<ast::AndCondition>,
    group: &mut Vec<ast::Relation>,
) -> Result<(), AllocError>
    ensures groups { OnOk result (map (λ group. group.0) groups.new.items ≡ done_before and_or (map (λ group. group.0) groups.old.items) group.old.items) }
    ensures group { OnOk result (group.new.items ≡ open_before and_or group.old.items) }
{
    match and_or {
        AndOr::And => Ok(()),
        AndOr::Or => {
            let whole = mem::replace(group, Vec::with_capacity(alloc, ROOM)?);
            groups.push(ast::AndCondition(Sequence(whole)))?;
            Ok(())
        }
    }
}

// The tree of a relation.
fn relation_of(alloc: Global, relation: &Relation<'_>) -> Result<ast::Relation, AllocError>
    ensures { IfOk result (λ tree. tree ≡ unpacked_relation (lent_relation relation.now)) }
{
    Ok(ast::Relation {
        expression: relation.operand().with_modulo(relation.modulo()),
        operator: ast::Operator::from(relation.polarity()),
        range_list: ranges_of(alloc, relation)?,
    })
}

// The ranges of a relation.
fn ranges_of(alloc: Global, relation: &Relation<'_>) -> Result<ast::RangeList, AllocError>
    ensures { IfOk result (λ list. list.0 ≡ map unpacked_range (lent_relation relation.now).meaning.ranges) }
{
    let mut items = Vec::with_capacity(alloc, relation.len())?;
    for range in relation.ranges() {
        items.push_reserved(ast::RangeListItem::from(range));
    }
    Ok(ast::RangeList(Sequence(items)))
}
