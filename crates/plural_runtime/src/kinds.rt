//! The kinds that a packed relation is made of.

ghost use Rattle.std.specs.Prelude.{◌≡◌};
ghost use Rattle.plural_reference.specs.Serializer.{operator_text};
ghost use Rattle.plural_operands.specs.Operands.{operand_text};
ghost use Rattle.plural_runtime.specs.RuleKinds.{operator_of, packed_operand_of, polarity_of, tree_operand_of};
ghost use Rattle.plural_runtime.specs.PackedTree.{unpacked_modulus};

use plural_reference::ast;

/// How a relation is joined to the previous one.
#[derive(Clone, Copy, Debug, PartialEq, Eq)]
pub enum AndOr {
    /// It begins a new group.
    Or,
    /// It continues the group of the previous one.
    And,
}

/// Whether the value has to be in the list (`=`) or outside it (`!=`).
#[derive(Clone, Copy, Debug, PartialEq, Eq)]
pub enum Polarity {
    /// Outside the list.
    Negative,
    /// In the list.
    Positive,
}

/// What a relation tests of a number (UTS 35 Part 3, Plural Operand Meanings).
#[derive(Clone, Copy, Debug, PartialEq, Eq)]
pub enum Operand {
    /// The absolute value.
    N,
    /// The integer part.
    I,
    /// How many fraction digits are visible.
    V,
    /// How many fraction digits are visible, without trailing zeros.
    W,
    /// The visible fraction digits as a number.
    F,
    /// The visible fraction digits as a number, without trailing zeros.
    T,
    /// The compact exponent.
    C,
    /// Another name of the compact exponent.
    E,
}

impl From<ast::Operator> for Polarity {
    ghost from_gives = { λ operator polarity. polarity ≡ polarity_of operator };

    fn from(operator: ast::Operator) -> Polarity {
        match operator {
            ast::Operator::Eq => Polarity::Positive,
            ast::Operator::NotEq => Polarity::Negative,
        }
    }
}

impl From<Polarity> for ast::Operator {
    ghost from_gives = { λ polarity operator. operator ≡ operator_of polarity };

    fn from(polarity: Polarity) -> ast::Operator {
        match polarity {
            Polarity::Positive => ast::Operator::Eq,
            Polarity::Negative => ast::Operator::NotEq,
        }
    }
}

impl From<ast::Operand> for Operand {
    ghost from_gives = { λ operand packed. packed ≡ packed_operand_of operand };

    #[inline]
    fn from(operand: ast::Operand) -> Operand {
        match operand {
            ast::Operand::N => Operand::N,
            ast::Operand::I => Operand::I,
            ast::Operand::V => Operand::V,
            ast::Operand::W => Operand::W,
            ast::Operand::F => Operand::F,
            ast::Operand::T => Operand::T,
            ast::Operand::C => Operand::C,
            ast::Operand::E => Operand::E,
        }
    }
}

impl From<Operand> for ast::Operand {
    ghost from_gives = { λ operand tree. tree ≡ tree_operand_of operand };

    #[inline]
    fn from(operand: Operand) -> ast::Operand {
        match operand {
            Operand::N => ast::Operand::N,
            Operand::I => ast::Operand::I,
            Operand::V => ast::Operand::V,
            Operand::W => ast::Operand::W,
            Operand::F => ast::Operand::F,
            Operand::T => ast::Operand::T,
            Operand::C => ast::Operand::C,
            Operand::E => ast::Operand::E,
        }
    }
}

impl Polarity {
    // Returns its operator as it is written.
    #[inline]
    pub(crate) fn as_str(self) -> &'static str
        ensures { result.now ≡ operator_text (operator_of self) }
    {
        ast::Operator::from(self).as_str()
    }
}

impl Operand {
    // Returns its letter as it is written.
    #[inline]
    pub(crate) fn as_str(self) -> &'static str
        ensures { result.now ≡ operand_text (tree_operand_of self) }
    {
        ast::Operand::from(self).as_str()
    }

    /// Returns the expression of the operand, with the modulus unless it is 0.
    ///
    /// <!-- snippet crates/tests_libraries/src/tests/plural_runtime_examples.rt:
    /// example "let plain" to "holds!(rt; reduced" of fn a_modulus_0_is_none -->
    /// ```
    /// let plain = Operand::I.with_modulo(0);
    /// assert!(rt; plain.operand == ast::Operand::I && plain.modulus == None);
    /// let reduced = Operand::I.with_modulo(10);
    /// assert!(rt; reduced.modulus == Some(ast::Value(10)));
    /// ```
    pub fn with_modulo(self, modulo: u32) -> ast::Expression
        ensures operand { result.operand ≡ tree_operand_of self }
        ensures modulus { result.modulus ≡ unpacked_modulus modulo }
    {
        let modulus = if modulo == 0 {
            None
        } else {
            Some(ast::Value::from(modulo))
        };
        ast::Expression {
            operand: ast::Operand::from(self),
            modulus,
        }
    }
}
