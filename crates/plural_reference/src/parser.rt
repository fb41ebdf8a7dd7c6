//! Reading rules (UTS 35 Part 3, Plural Rules Syntax).

mod fault;
mod front;
mod samples;
pub(crate) mod sink;
mod tree;
mod whole;

ghost use Rattle.std.specs.Prelude.{◌≡◌, ◌≢◌, ◌∷◌, [], List, Some, None, Ok, Err, length, ◌≤◌, IfOk, MatchBool, MatchOption, MatchResult};
ghost use Rattle.plural_reference.specs.declared.token.Token.TheVariants as token;
ghost use Rattle.plural_reference.specs.declared.token.Token.TheVariants.{And, Comma, Or};
ghost use Rattle.plural_reference.specs.Lexer.{AreTokensOf, first};
ghost use Rattle.plural_reference.specs.Parser.{Reads, Faulty, operand_of, value_fault};
ghost use Rattle.plural_reference.specs.declared.error.ParseError.TheVariants.{ExpectedValue};
ghost use Rattle.plural_reference.specs.Samples.{ReadsRule, ReadsCondition, FaultyRule};
ghost use Rattle.plural_reference.specs.Reading.{AnswersExactly, IsAnswer};
ghost use Rattle.plural_reference.specs.Inner.Reader.{run, begin, joint, expected_behind, TakesValue, NoValue, TakesOperand, NoOperand, NoOperator, ReadsItem, ReadsItems, ReadsExpression, ReadsParts, ReadsOption, FailsAtItem, FailsAtItems, FailsAtOperand};
ghost use Rattle.plural_reference.specs.declared.ast.RangeListItem.{RangeListItem as Item};
ghost use Rattle.plural_reference.specs.RelationSinks.{Before, nothing, condition_of, IsReadBy};

use crate::ast::{Condition, Expression, Operand, Operator, RangeListItem, Rule, Value};
use crate::error::{ParseError, ReadError};
use crate::lexer::first_token;
use crate::parser::front::{behind, behind_spaces, number_at, operator_at};
use crate::parser::samples::sink::Kept;
use crate::parser::sink::RelationSink;
use crate::parser::tree::Tree;
use crate::sequence::Sequence;
use crate::token::Token;
pub use fault::{RuleFault, fault_of};
use std::alloc::{AllocError, Global};
use std::marker::Model;
pub use whole::is_read_whole;

/// Reads the condition of a rule (UTS 35 Part 3, Plural Rules Syntax) from the longest beginning of
/// the text that is one; what follows it is ignored, samples too. A text that is empty or begins
/// with `@` is the empty condition.
///
/// The error is the [`ParseError`] of the first place where the condition doesn't continue, or out
/// of memory; only the tree is allocated.
///
/// <!-- snippet crates/tests_libraries/src/tests/plural_reference_examples.rt:
/// example "let values" to "holds!" of fn reads_long_lists_of_values -->
/// ```
/// let values = [1, 5, 7, 8, 9, 10];
/// let read = parse_condition(alloc, b"n = 1,5,7,8,9,10")?;
/// let group = read.0.get(0).ok_or("no and-condition")?;
/// let items = &group.0.get(0).ok_or("no relation")?.range_list.0;
/// assert!(rt; items.len() == values.len());
/// ```
#[tactic(auto, using(crate::proofs::rules::Answered::condition_answers))]
pub fn parse_condition(alloc: Global, text: &[u8]) -> Result<Condition, ReadError>
    ensures { AnswersExactly Reads Faulty text.now result }
{
    let mut parser = Parser::new(text);
    parser.condition(alloc)
}

/// Reads a rule: its condition as by [`parse_condition`], and the samples after it (UTS 35 Part 3,
/// Samples). Of several lists of one type the last counts, and what follows the samples is ignored.
///
/// The error is the [`ParseError`] of its condition, or else of its samples, or out of memory; only
/// the tree is allocated.
///
/// <!-- snippet crates/tests_libraries/src/tests/plural_reference_printing.rt:
/// example fn samples_of -->
/// ```
/// fn samples_of(alloc: Global, text: &str) -> anyhow::Result<Samples> {
///     let rule = parse(alloc, text.as_bytes())?;
///     Ok(rule.samples.ok_or("no samples")?)
/// }
/// ```
pub fn parse(alloc: Global, text: &[u8]) -> Result<Rule, ReadError>
    ensures { AnswersExactly ReadsRule FaultyRule text.now result }
{
    let mut parser = Parser::new(text);
    let condition = parser.condition(alloc)?;
    let samples = parser.samples::<Kept>(alloc)?;
    Ok(Rule { condition, samples })
}

/// Reads the condition of a rule relation by relation, as by [`parse`]: the samples after it are
/// checked and left out, and no tree is made.
///
/// The error is that of [`parse`], or out of memory; what the sink took before it is to be dropped.
pub fn read_relations<S: RelationSink>(
    alloc: Global,
    text: &[u8],
    sink: &mut S,
) -> Result<(), ReadError>
    requires { S.holds sink.old nothing [] }
    ensures { IsReadBy (λ s before. S.holds s before []) text.now sink.new result }
{
    let mut parser = Parser::new(text);
    parser.relations(alloc, sink)?;
    parser.leave_samples_out(alloc)?;
    Ok(())
}

/// Reads the condition of a rule, as by [`parse`]: the samples after it are checked and left out.
///
/// The error is that of [`parse`], or out of memory; only the condition is allocated.
pub fn parse_without_samples(alloc: Global, text: &[u8]) -> Result<Condition, ReadError>
    ensures { AnswersExactly ReadsCondition FaultyRule text.now result }
{
    let mut tree = Tree::new(alloc);
    read_relations(alloc, text, &mut tree)?;
    Ok(tree.condition(alloc)?)
}

// The bytes whose tokens remain, from the first token on.
#[derive(Drop)]
struct Parser<'p> {
    rest: &'p [u8],
}

impl<'p> Model for Parser<'p> {
    ghost use Rattle.std.specs.Prelude.{List};
    ghost use Rattle.plural_reference.specs.declared.token.Token.{Token};
    ghost use Rattle.plural_reference.specs.Inner.Front.{BeginsAtToken};
    ghost use Rattle.plural_reference.specs.Inner.Scan.{tokens_of};

    ghost Value = { List Token };

    ghost view = { λ p. tokens_of p.rest.now };

    ghost invariant = { λ p. BeginsAtToken p.rest.now };
}

impl<'p> Parser<'p> {
    fn new(text: &'p [u8]) -> Self
        ensures { AreTokensOf text.now result }
    {
        Parser {
            rest: behind_spaces(text),
        }
    }

    // Takes the next token if it is this one.
    #[inline(always)]
    fn take_if(&mut self, token: Token) -> bool
        ensures { MatchBool result (self.old ≡ token ∷ self.new) ((first self.old ≢ Some token) × (self.new ≡ self.old)) }
    {
        match behind(self.rest, &token) {
            Some(after) => {
                self.rest = behind_spaces(after);
                true
            }
            None => false,
        }
    }

    // Takes the next token if it is a number.
    #[inline]
    fn take_number(&mut self) -> Option<u32>
        ensures { MatchOption result
            ((value_fault (first self.old) ≡ Some ExpectedValue) × (self.new ≡ self.old))
            (λ n. TakesValue self.old (record { 0 = n }) self.new) }
    {
        let (number, after) = number_at(self.rest)?;
        self.rest = behind_spaces(after);
        Some(number)
    }

    // value = Number | Zero
    fn value(&mut self) -> Result<Value, ParseError>
        ensures shorter { length self.new ≤ length self.old }
        ensures value { MatchResult result (λ v. TakesValue self.old v self.new) (NoValue self.old self.new) }
    {
        let number = self.take_number().ok_or(ParseError::ExpectedValue)?;
        Ok(Value::from(number))
    }

    // item = value | value DotDot value
    #[inline(always)]
    #[tactic(auto, using(crate::proofs::reading::ParserSteps::item_steps))]
    fn item(&mut self) -> Result<RangeListItem, ParseError>
        ensures shorter { length self.new ≤ length self.old }
        ensures item { MatchResult result (λ x. ReadsItem self.old x self.new) (FailsAtItem self.old self.new) }
    {
        let value = self.value()?;
        if self.take_if(Token::DotDot) {
            let end = self.value()?;
            Ok(RangeListItem::Range(value, end))
        } else {
            Ok(RangeListItem::Value(value))
        }
    }

    // range_list = item (Comma item)*
    #[inline(always)]
    fn range_list<S: RelationSink>(&mut self, alloc: Global, sink: &mut S) -> Result<(), ReadError>
        ensures shorter { length self.new ≤ length self.old }
        ensures list { IsAnswer
            (λ _. (items : List Item) × ReadsItems self.old items self.new × (first self.new ≢ Some Comma)
            × ((before : Before) → S.holds sink.old before [] → S.holds sink.new before items))
            (FailsAtItems self.old self.new)
            result }
    {
        let first = self.item()?;
        sink.push(alloc, first)?;
        'items: while self.take_if(Token::Comma) {
            let next = self.item()?;
            sink.push(alloc, next)?;
        }
        Ok(())
    }

    // Takes the operand that begins a relation, unless the tokens end or At comes.
    fn operand(&mut self) -> Result<Option<Operand>, ParseError>
        ensures shorter { length self.new ≤ length self.old }
        ensures operand { MatchResult result (λ o. ReadsOption TakesOperand self.old o self.new) (NoOperand self.old self.new) }
    {
        let Some((token, after)) = first_token(self.rest) else {
            return Ok(None);
        };
        if token == Token::At {
            return Ok(None);
        }
        match operand_of(&token) {
            Some(operand) => {
                self.rest = behind_spaces(after);
                Ok(Some(operand))
            }
            None => Err(ParseError::ExpectedOperand),
        }
    }

    // expr = (Operand | E) (Modulo value)?
    fn expression(&mut self) -> Result<Option<Expression>, ParseError>
        ensures shorter { length self.new ≤ length self.old }
        ensures expression { MatchResult result (λ x. ReadsOption ReadsExpression self.old x self.new) (FailsAtOperand self.old self.new) }
    {
        let Some(operand) = self.operand()? else {
            return Ok(None);
        };
        if !self.take_if(Token::Modulo) {
            return Ok(Some(Expression {
                operand,
                modulus: None,
            }));
        }
        let modulus = Some(self.value()?);
        Ok(Some(Expression { operand, modulus }))
    }

    // operator = Operator
    fn operator(&mut self) -> Result<Operator, ParseError>
        ensures shorter { length self.new ≤ length self.old }
        ensures operator { MatchResult result (λ o. self.old ≡ token.Operator o ∷ self.new) (NoOperator self.old self.new) }
    {
        let (operator, after) = operator_at(self.rest).ok_or(ParseError::ExpectedOperator)?;
        self.rest = behind_spaces(after);
        Ok(operator)
    }

    // relation = expr Operator range_list
    #[inline(always)]
    fn relation<S: RelationSink>(
        &mut self,
        alloc: Global,
        sink: &mut S,
    ) -> Result<Option<(Expression, Operator)>, ReadError>
        ensures shorter { length self.new ≤ length self.old }
        ensures relation { IsAnswer
            (λ r. (items : List Item) × ReadsParts self.old r items self.new
            × ((before : Before) → S.holds sink.old before [] → S.holds sink.new before items))
            (FailsAtOperand self.old self.new)
            result }
    {
        let Some(expression) = self.expression()? else {
            return Ok(None);
        };
        let operator = self.operator()?;
        self.range_list(alloc, sink)?;
        Ok(Some((expression, operator)))
    }

    // Takes `and` or `or` if one comes next: whether it is `or`.
    #[inline(always)]
    fn joint(&mut self) -> Option<bool>
        ensures { MatchOption result
            ((first self.old ≢ Some And) × (first self.old ≢ Some Or) × (self.new ≡ self.old))
            (λ is_or. self.old ≡ joint is_or ∷ self.new) }
    {
        if self.take_if(Token::And) {
            return Some(false);
        }
        if self.take_if(Token::Or) {
            return Some(true);
        }
        None
    }

    // condition = relation ((And | Or) relation)*, or nothing
    fn relations<S: RelationSink>(&mut self, alloc: Global, sink: &mut S) -> Result<(), ReadError>
        requires { S.holds sink.old nothing [] }
        ensures { IsAnswer
            (λ _. (before : Before) × S.holds sink.new before [] × (run begin self.old ≡ Ok (condition_of before, self.new)))
            (λ e. run begin self.old ≡ Err (e, self.new))
            result }
    {
        let Some((expression, operator)) = self.relation(alloc, sink)? else {
            return Ok(());
        };
        sink.take(alloc, expression, operator, false)?;
        'joints: while let Some(is_after_or) = self.joint() {
            let Some((expression, operator)) = self.relation(alloc, sink)? else {
                return Err(ReadError::Parse(expected_behind(is_after_or)));
            };
            sink.take(alloc, expression, operator, is_after_or)?;
        }
        Ok(())
    }

    // The tree of a condition.
    fn condition(&mut self, alloc: Global) -> Result<Condition, ReadError>
        ensures { IsAnswer (λ c. run begin self.old ≡ Ok (c, self.new)) (λ e. run begin self.old ≡ Err (e, self.new)) result }
    {
        let mut tree = Tree::new(alloc);
        self.relations(alloc, &mut tree)?;
        Ok(tree.condition(alloc)?)
    }
}

// What is expected behind `and`, or behind `or`.
fn expected_behind(is_after_or: bool) -> ParseError
    ensures { result ≡ expected_behind is_after_or }
{
    if is_after_or {
        ParseError::ExpectedAndCondition
    } else {
        ParseError::ExpectedRelation
    }
}

// The operand that a token is.
#[inline]
fn operand_of(token: &Token) -> Option<Operand>
    ensures { result ≡ operand_of token.now }
{
    match token {
        Token::Operand(operand) => Some(*operand),
        Token::E => Some(Operand::E),
        _ => None,
    }
}
