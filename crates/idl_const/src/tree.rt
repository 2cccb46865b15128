//! Expressions as a file has them.

ghost use Rattle.std.specs.Prelude.{◌≡◌, IfOk};
ghost use Rattle.idl_const.specs.Exprs.{seen, unary, binary};

use kit_base::{Name, NoMemory};
use std::alloc::Global;

/// A unary operator.
#[derive(Clone, Copy, Debug, PartialEq, Eq)]
pub enum UnaryOp {
    /// The negative of a number: `-`.
    Minus,
    /// The number itself: `+`.
    Plus,
}

/// A binary operator.
#[derive(Clone, Copy, Debug, PartialEq, Eq)]
pub enum BinaryOp {
    /// Bitwise or: `|`.
    Or,
    /// Bitwise exclusive or: `^`.
    Xor,
    /// Bitwise and: `&`.
    And,
    /// Shift to the left by 0 to 63 places: `<<`.
    Left,
    /// Shift to the right by 0 to 63 places, which keeps the sign: `>>`.
    Right,
    /// Sum: `+`.
    Add,
    /// Difference: `-`.
    Sub,
    /// Product: `*`.
    Mul,
    /// Quotient, rounded towards 0: `/`.
    Div,
    /// Remainder, with the sign of the number that is divided: `%`.
    Rem,
}

/// An expression. Parentheses leave no trace in it.
#[derive(Debug, Drop)]
pub enum Expr {
    /// A literal.
    Num(i128),
    /// The name of a constant.
    Name(Name),
    /// An operator and its operand.
    Unary(UnaryOp, Box<Expr>),
    /// An operator between its left and its right operand.
    Binary(BinaryOp, Box<Expr>, Box<Expr>),
}

impl Expr {
    /// An operator before its operand.
    pub fn unary(alloc: Global, op: UnaryOp, operand: Expr) -> Result<Expr, NoMemory>
        ensures { IfOk result (λ e. seen e ≡ unary op (seen operand)) }
    {
        Ok(Expr::Unary(op, Box::new(alloc, operand)?))
    }

    /// An operator between its operands.
    pub fn binary(alloc: Global, op: BinaryOp, left: Expr, right: Expr) -> Result<Expr, NoMemory>
        ensures { IfOk result (λ e. seen e ≡ binary op (seen left) (seen right)) }
    {
        let left = Box::new(alloc, left)?;
        let right = Box::new(alloc, right)?;
        Ok(Expr::Binary(op, left, right))
    }
}
