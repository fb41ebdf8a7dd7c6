//! The tokens of texts.

use plural_reference::ast::{Operand, Operator};
use plural_reference::{Lexer, Token};
use row_calls::call::Call;
use std::fmt::Write;

/// Makes the call of a kind of this file. Returns whether there is such a kind.
pub fn make(kind: &str, call: &mut Call) -> bool {
    match kind {
        "tokens" => tokens(call),
        "tokens_of_bytes" => tokens_of_bytes(call),
        "equal_tokens" => equal_tokens(call),
        _ => return false,
    }
    true
}

// The tokens of a text.
fn tokens(call: &mut Call) {
    let text = call.text();
    print_tokens(call, text.as_bytes());
}

// The tokens of bytes.
fn tokens_of_bytes(call: &mut Call) {
    let bytes = call.bytes();
    print_tokens(call, bytes.as_slice());
}

// Prints a letter for each token, or `none`.
fn print_tokens(call: &mut Call, text: &[u8]) {
    for token in Lexer::new(text) {
        match token {
            Token::Number(number) => {
                let _ = write!(call, "<{number}>");
            }
            _ => call.print(letter_of(token)),
        }
    }
    call.print_none_if_empty();
}

// The letter of a token that isn't a number.
fn letter_of(token: Token) -> &'static str {
    match token {
        Token::Operand(operand) => operand_letter(operand),
        Token::Operator(Operator::Eq) => "=",
        Token::Operator(Operator::NotEq) => "!",
        Token::Number(_) => "<>",
        Token::Zero => "0",
        Token::Dot => ".",
        Token::DotDot => ":",
        Token::Comma => ",",
        Token::Or => "O",
        Token::And => "A",
        Token::Modulo => "%",
        Token::Junk => "?",
        Token::At => "@",
        Token::Decimal => "D",
        Token::Integer => "I",
        Token::Ellipsis => "*",
        Token::Tilde => "~",
        Token::E => "e",
    }
}

// The letter of an operand; `E` is no token of the lexer.
fn operand_letter(operand: Operand) -> &'static str {
    match operand {
        Operand::N => "n",
        Operand::I => "i",
        Operand::V => "v",
        Operand::W => "w",
        Operand::F => "f",
        Operand::T => "t",
        Operand::C => "c",
        Operand::E => "E",
    }
}

// How many tokens there are, if all are as the first one.
fn equal_tokens(call: &mut Call) {
    let text = call.text();
    let mut lexer = Lexer::new(text.as_bytes());
    let Some(first) = lexer.next() else {
        return call.print("none");
    };
    let mut count = 1_u64;
    for token in lexer {
        if token != first {
            return call.print("different");
        }
        count = count.saturating_add(1);
    }
    let _ = write!(call, "{count} {first:?}");
}
