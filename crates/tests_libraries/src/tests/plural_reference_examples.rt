//! The examples of the pages of `plural_reference`.

use crate::tests::assertion::holds;
use plural_reference::ast::{Operand, RangeListItem, Value};
use plural_reference::{
    Lexer, OperandsError, PluralOperands, RawPluralOperands, Token, parse_condition, test_condition,
};
use std::test::Fail;

#[test]
fn reads_long_lists_of_values(rt: HostRuntime) -> Result<(), Fail> {
    let values = [1, 5, 7, 8, 9, 10];
    let read = parse_condition(rt.alloc(), b"n = 1,5,7,8,9,10")?;
    let group = read.0.get(0).ok_or("no and-condition")?;
    let items = &group.0.get(0).ok_or("no relation")?.range_list.0;
    holds!(rt; items.len() == values.len());
    for (item, value) in items.iter().zip(values) {
        holds!(rt; *item == RangeListItem::Value(Value(value)), at value);
    }
    Ok(())
}

#[test]
fn gives_no_token_behind_the_last(rt: HostRuntime) {
    let mut lexer = Lexer::new(b"i 1 ");
    holds!(rt; lexer.next() == Some(Token::Operand(Operand::I)));
    holds!(rt; lexer.next() == Some(Token::Number(1)));
    holds!(rt; lexer.next() == None);
    holds!(rt; lexer.next() == None);
}

#[test]
fn tells_when_a_condition_is_true(rt: HostRuntime) -> Result<(), Fail> {
    let table = [
        ("i = 1 and v = 0", 1, true),
        ("i = 1 and v = 0", 2, false),
        ("i = 1 or n = 2 and v = 0 or i = 7", 2, true),
    ];
    for (text, number, want) in table {
        let condition = parse_condition(rt.alloc(), text.as_bytes())?;
        let operands = PluralOperands::from(number as u32);
        holds!(rt; test_condition(&condition, &operands) == want, text);
    }
    Ok(())
}

// At 1.5 `n` has no value, so both operators are false.
#[test]
fn knows_no_whole_number_at_a_fraction(rt: HostRuntime) -> Result<(), Fail> {
    for text in ["n = 1", "n != 1"] {
        let condition = parse_condition(rt.alloc(), text.as_bytes())?;
        let half = PluralOperands::from(RawPluralOperands {
            i: 1,
            v: 1,
            w: 1,
            f: 5,
            t: 5,
            c: 0,
        });
        holds!(rt; !test_condition(&condition, &half), text);
    }
    Ok(())
}

#[test]
fn an_empty_text_names_none(rt: HostRuntime) {
    holds!(rt; "".parse::<PluralOperands>() == Err(OperandsError::Empty));
}

#[test]
fn a_whole_number_is_its_operand_n(rt: HostRuntime) {
    holds!(rt; PluralOperands::from(7u32).value(Operand::N) == Some(7));
}
