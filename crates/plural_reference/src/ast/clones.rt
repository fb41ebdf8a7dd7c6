//! Clones of trees.

ghost use Rattle.std.specs.Prelude.{◌≡◌, IfOk, Ok};
ghost use Rattle.std.specs.Option.{option_copied};

use crate::ast::{
    AndCondition, Condition, DecimalValue, Expression, RangeList, RangeListItem, Relation, Rule,
    SampleList, SampleRange, Samples, Value,
};
use crate::sequence::Sequence;
use std::alloc::AllocError;

impl Rule {
    /// Returns a clone, equal to the rule. The only error is out of memory.
    pub fn try_clone(&self) -> Result<Self, AllocError>
        ensures { IfOk result (λ x. x ≡ self.now) }
    {
        Ok(Rule {
            condition: self.condition.try_clone()?,
            samples: clone_option(self.samples.as_ref())?,
        })
    }
}

impl Condition {
    /// Returns a clone, equal to the condition. The only error is out of memory.
    pub fn try_clone(&self) -> Result<Self, AllocError>
        ensures { IfOk result (λ x. x ≡ self.now) }
    {
        Ok(Condition(clone_sequence(&self.0)?))
    }
}

impl AndCondition {
    /// Returns a clone, equal to the and-condition. The only error is out of memory.
    pub fn try_clone(&self) -> Result<Self, AllocError>
        ensures { IfOk result (λ x. x ≡ self.now) }
    {
        Ok(AndCondition(clone_sequence(&self.0)?))
    }
}

impl Relation {
    /// Returns a clone, equal to the relation. The only error is out of memory.
    pub fn try_clone(&self) -> Result<Self, AllocError>
        ensures { IfOk result (λ x. x ≡ self.now) }
    {
        Ok(Relation {
            expression: self.expression.try_clone()?,
            operator: self.operator,
            range_list: self.range_list.try_clone()?,
        })
    }
}

impl Expression {
    /// Returns a clone, equal to the expression. It allocates nothing, so it is always `Ok`.
    pub fn try_clone(&self) -> Result<Self, AllocError>
        ensures { result ≡ Ok self.now }
    {
        Ok(Expression {
            operand: self.operand,
            modulus: self.modulus.as_ref().map(|modulus| Value(modulus.0)),
        })
    }
}

impl RangeList {
    /// Returns a clone, equal to the list. The only error is out of memory.
    pub fn try_clone(&self) -> Result<Self, AllocError>
        ensures { IfOk result (λ x. x ≡ self.now) }
    {
        Ok(RangeList(clone_sequence(&self.0)?))
    }
}

impl RangeListItem {
    /// Returns a clone, equal to the item. It allocates nothing, so it is always `Ok`.
    pub fn try_clone(&self) -> Result<Self, AllocError>
        ensures { result ≡ Ok self.now }
    {
        match self {
            RangeListItem::Range(start, end) => {
                Ok(RangeListItem::Range(Value(start.0), Value(end.0)))
            }
            RangeListItem::Value(value) => Ok(RangeListItem::Value(Value(value.0))),
        }
    }
}

impl Value {
    /// Returns a clone, equal to the value. It allocates nothing, so it is always `Ok`.
    pub fn try_clone(&self) -> Result<Self, AllocError>
        ensures { result ≡ Ok self.now }
    {
        Ok(Value(self.0))
    }
}

impl Samples {
    /// Returns a clone, equal to the samples. The only error is out of memory.
    pub fn try_clone(&self) -> Result<Self, AllocError>
        ensures { IfOk result (λ x. x ≡ self.now) }
    {
        Ok(Samples {
            integer: clone_option(self.integer.as_ref())?,
            decimal: clone_option(self.decimal.as_ref())?,
        })
    }
}

impl SampleList {
    /// Returns a clone, equal to the list. The only error is out of memory.
    pub fn try_clone(&self) -> Result<Self, AllocError>
        ensures { IfOk result (λ x. x ≡ self.now) }
    {
        Ok(SampleList {
            sample_ranges: clone_sequence(&self.sample_ranges)?,
            ellipsis: self.ellipsis,
        })
    }
}

impl SampleRange {
    /// Returns a clone, equal to the range. The only error is out of memory.
    pub fn try_clone(&self) -> Result<Self, AllocError>
        ensures { IfOk result (λ x. x ≡ self.now) }
    {
        Ok(SampleRange {
            lower_val: self.lower_val.try_clone()?,
            upper_val: clone_option(self.upper_val.as_ref())?,
        })
    }
}

impl DecimalValue {
    /// Returns a clone, equal to the sample. The only error is out of memory.
    pub fn try_clone(&self) -> Result<Self, AllocError>
        ensures { IfOk result (λ x. x ≡ self.now) }
    {
        Ok(DecimalValue(self.0.clone()?))
    }
}

// A part of a tree that lists and options hold. Generic code reaches a method only by a trait, so
// each impl calls the public `try_clone` of its type.
trait Cloned: Drop {
    fn cloned(&self) -> Result<Self, AllocError>
        ensures { IfOk result (λ x. x ≡ self.now) };
}

impl Cloned for AndCondition {
    fn cloned(&self) -> Result<Self, AllocError> {
        self.try_clone()
    }
}

impl Cloned for Relation {
    fn cloned(&self) -> Result<Self, AllocError> {
        self.try_clone()
    }
}

impl Cloned for RangeListItem {
    fn cloned(&self) -> Result<Self, AllocError> {
        self.try_clone()
    }
}

impl Cloned for Samples {
    fn cloned(&self) -> Result<Self, AllocError> {
        self.try_clone()
    }
}

impl Cloned for SampleList {
    fn cloned(&self) -> Result<Self, AllocError> {
        self.try_clone()
    }
}

impl Cloned for SampleRange {
    fn cloned(&self) -> Result<Self, AllocError> {
        self.try_clone()
    }
}

impl Cloned for DecimalValue {
    fn cloned(&self) -> Result<Self, AllocError> {
        self.try_clone()
    }
}

fn clone_option<T: Cloned>(source: Option<&T>) -> Result<Option<T>, AllocError>
    ensures { IfOk result (λ x. x ≡ option_copied source.entry) }
{
    match source {
        Some(value) => Ok(Some(value.cloned()?)),
        None => Ok(None),
    }
}

fn clone_sequence<T: Cloned>(source: &Sequence<T>) -> Result<Sequence<T>, AllocError>
    ensures { IfOk result (λ x. x ≡ source.now) }
{
    let mut clones = Vec::with_capacity(*source.0.allocator(), source.as_slice().len())?;
    for value in source.as_slice() {
        clones.push(value.cloned()?)?;
    }
    Ok(Sequence(clones))
}
