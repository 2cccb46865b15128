//! The values of constant expressions.

ghost use Rattle.std.specs.Prelude.{◌≡◌};
ghost use Rattle.idl_names.specs.Answers.{Gives};
ghost use Rattle.corba_scopes.specs.Consts.{number_of, leaf_number, number, constant, length_of};

use crate::meanings::{Constant, Meaning};
use crate::state::Scopes;
use aoi::{NameErr, NameFault};
use idl_const::{binary, unary};
use idl_exprs::{Expr, Leaf, Node};
use idl_names::{in_range, natural};
use kit_base::Name;

/// The number that a name stands for, or the fault of a name that stands for none.
fn number_of(decl: u32, meaning: Option<Meaning>) -> Result<i128, NameErr>
    ensures value { Gives (λ x. x) result (number_of decl meaning) }
    ensures exact { result ≡ number_of decl meaning }
{
    let fault = match meaning {
        Some(Meaning::Number(n)) => return Ok(n),
        Some(_) => NameFault::NotConst,
        None => NameFault::Unknown,
    };
    Err(NameErr { fault, decl })
}

impl Scopes {
    /// The number of a leaf.
    fn leaf_number(&self, decl: u32, leaf: &Leaf) -> Result<i128, NameErr>
        ensures { Gives (λ x. x) result (leaf_number self.now decl leaf.now) }
    {
        match leaf {
            Leaf::Number(n) => Ok(*n),
            Leaf::Character(code) => Ok(i128::from(*code)),
            Leaf::Text(_) => Err(NameErr {
                fault: NameFault::Range,
                decl,
            }),
            Leaf::Truth(true) => Ok(1),
            Leaf::Truth(false) => Ok(0),
            Leaf::Name(name) => number_of(decl, self.named(name)),
        }
    }

    /// The number of an expression here, or its leftmost fault.
    pub fn number(&self, decl: u32, expr: &Expr) -> Result<i128, NameErr>
        ensures { Gives (λ x. x) result (number self.now decl expr.now) }
    {
        match &expr.node {
            Node::Leaf(leaf) => self.leaf_number(decl, leaf),
            Node::Unary(op, operand) => {
                let n = self.number(decl, operand)?;
                in_range(decl, unary(*op, n))
            }
            Node::Binary(op, left, right) => {
                let left = self.number(decl, left)?;
                let right = self.number(decl, right)?;
                in_range(decl, binary(*op, left, right))
            }
        }
    }

    /// The value of a constant here: a string alone is a string, and anything else a number.
    pub fn constant(&self, decl: u32, expr: &Expr) -> Result<Constant, NameErr>
        ensures { Gives (λ x. x) result (constant self.now decl expr.now) }
    {
        match &expr.node {
            Node::Leaf(Leaf::Text(codes)) => Ok(Constant::Text(codes.len())),
            _ => Ok(Constant::Number(self.number(decl, expr)?)),
        }
    }

    /// A bound, or the length of an array, here: from 1 up to 2^32 - 1.
    pub fn length(&self, decl: u32, expr: &Expr) -> Result<u32, NameErr>
        ensures { Gives (λ x. x) result (length_of self.now decl expr.now) }
    {
        let n = self.number(decl, expr)?;
        natural(1, decl, n)
    }
}
