//! The syntax tree of an expression.

ghost use Rattle.std.specs.Prelude.{◌≡◌, IfOk};
ghost use Rattle.idl_exprs.specs.Trees.{leaf, unary, binary};

use idl_const::{BinaryOp, UnaryOp};
use kit_base::{Listed, Name, NoMemory, Octets};
use std::alloc::Global;
use std::marker::Model;

/// An identifier (`<identifier>`), without the `_` that may come first to distinguish it from a word.
#[derive(Debug, Drop)]
pub struct Identifier {
    /// Its octets.
    pub name: Name,
}

/// A scoped name (`<scoped_name>`).
#[derive(Debug, Drop)]
pub struct ScopedName {
    /// Whether `::` comes first, so that the name is sought from the file's scope on.
    pub absolute: bool,
    /// The identifiers, one at least.
    pub parts: Listed<Identifier>,
}

/// A literal or a name (`<primary_expr>` without parentheses).
#[derive(Debug, Drop)]
pub enum Leaf {
    /// An integer literal.
    Number(i128),
    /// A character literal, by its code.
    Character(u8),
    /// A string literal, by the codes of its characters.
    Text(Octets),
    /// `TRUE` or `FALSE`.
    Truth(bool),
    /// The name of a constant or an enumerator.
    Name(ScopedName),
}

/// An expression (`<const_exp>`). Parentheses leave no trace in it.
#[cycle(expr)]
#[derive(Drop)]
pub struct Expr {
    /// Its outermost part.
    pub node: Node,
}

/// What an expression is made of.
#[cycle(expr)]
#[derive(Drop)]
pub enum Node {
    /// A literal or a name.
    Leaf(Leaf),
    /// An operator before its operand (`<unary_expr>`).
    Unary(UnaryOp, Box<Expr>),
    /// An operator between its operands.
    Binary(BinaryOp, Box<Expr>, Box<Expr>),
}

impl Model for Expr {
    ghost use Rattle.idl_exprs.specs.Trees.{Tree, height};
    ghost use Rattle.idl_exprs.specs.Stored.{coded_tree};

    ghost Value = { Tree };

    ghost coded = { coded_tree };

    ghost use Rattle.idl_exprs.specs.Levels.{level};

    ghost view = { λ e. level e.node };

    ghost size = { height };

    ghost use Rattle.idl_exprs.specs.TreeFalls.{deep_le-height};

    ghost size_decreases = { λ e h. deep_le-height e.node };
}

impl Expr {
    /// A literal or a name.
    pub fn of_leaf(item: Leaf) -> Expr
        ensures { result ≡ leaf item }
    {
        Expr {
            node: Node::Leaf(item),
        }
    }

    /// An operator before its operand.
    pub fn of_unary(alloc: Global, op: UnaryOp, operand: Expr) -> Result<Expr, NoMemory>
        ensures { IfOk result (λ e. e ≡ unary op operand) }
    {
        let operand = Box::new(alloc, operand)?;
        Ok(Expr {
            node: Node::Unary(op, operand),
        })
    }

    /// An operator between its operands.
    pub fn of_binary(alloc: Global, op: BinaryOp, left: Expr, right: Expr) -> Result<Expr, NoMemory>
        ensures { IfOk result (λ e. e ≡ binary op left right) }
    {
        let left = Box::new(alloc, left)?;
        let right = Box::new(alloc, right)?;
        Ok(Expr {
            node: Node::Binary(op, left, right),
        })
    }
}
