//! The tokens of an expression.

ghost use Rattle.std.specs.Prelude.{◌≡◌};
ghost use Rattle.gettext_plural.specs.PluralExpressions.{binding};

// An operator with two operands.
#[derive(Clone, Copy)]
pub(crate) enum Operator {
    Or,
    And,
    Equal,
    Unequal,
    Below,
    Above,
    AtMost,
    AtLeast,
    Plus,
    Minus,
    Times,
    Over,
    Remainder,
}

impl Operator {
    // How tightly it binds its operands.
    pub(crate) fn binding(self) -> u8
        ensures { result ≡ binding self }
    {
        match self {
            Operator::Or => 1,
            Operator::And => 2,
            Operator::Equal | Operator::Unequal => 3,
            Operator::Below | Operator::Above | Operator::AtMost | Operator::AtLeast => 4,
            Operator::Plus | Operator::Minus => 5,
            Operator::Times | Operator::Over | Operator::Remainder => 6,
        }
    }
}

// A token. Junk begins nothing that an expression has.
#[derive(Drop)]
pub(crate) enum Token {
    Number(u64),
    N,
    Not,
    Joint(Operator),
    Question,
    Colon,
    Open,
    Close,
    Junk,
}
