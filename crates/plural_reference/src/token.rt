//! The tokens of a plural rule's text.

use crate::ast;

/// A token of a plural rule's text (UTS 35 Part 3, Plural Rules Syntax).
#[derive(Debug, PartialEq, Drop)]
pub enum Token {
    /// `n`, `i`, `v`, `w`, `f`, `t` or `c`; `e` is [`Token::E`]. `c` also marks an exponent in a
    /// sample.
    Operand(ast::Operand),
    /// `=` or `!=`.
    Operator(ast::Operator),
    /// A run of digits that begins with 1 to 9, of a value from 1 to 4294967295.
    Number(u32),
    /// The digit `0`, unless it continues a number.
    Zero,
    /// `.`.
    Dot,
    /// `..`.
    DotDot,
    /// `,`.
    Comma,
    /// `or`.
    Or,
    /// `and`.
    And,
    /// `%`.
    Modulo,
    /// What isn't a piece of a rule: an unknown byte, a broken keyword, or a number above
    /// 4294967295.
    Junk,
    /// `@`.
    At,
    /// `decimal`.
    Decimal,
    /// `integer`.
    Integer,
    /// `…`.
    Ellipsis,
    /// `~`.
    Tilde,
    /// `e`: the operand, and the mark of an exponent in a sample.
    E,
}
