//! The values of expressions.

ghost use Rattle.std.specs.Prelude.{◌≡◌};
ghost use Rattle.idl_names.specs.Answers.{Gives};
ghost use Rattle.front_mig.specs.Numbers.{leaf_value, value, length_of, base_of, ids_fit};

use crate::{NameErr, NameFault};
use idl_const::{binary, unary};
use idl_exprs::{Expr, Leaf, Node};
use idl_names::{fault, in_range, natural, refuse};

/// The value of a leaf, which is a number in every tree of a file.
fn leaf_value(decl: u32, leaf: &Leaf) -> Result<i128, NameErr>
    ensures { result ≡ leaf_value decl leaf.now }
{
    match leaf {
        Leaf::Number(n) => Ok(*n),
        _ => Err(fault(NameFault::Range, decl)),
    }
}

/// The value of an expression, or its leftmost fault.
pub(crate) fn value(decl: u32, e: &Expr) -> Result<i128, NameErr>
    ensures { result ≡ value decl e.now }
{
    match &e.node {
        Node::Leaf(leaf) => leaf_value(decl, leaf),
        Node::Unary(op, operand) => {
            let n = value(decl, operand)?;
            in_range(decl, unary(*op, n))
        }
        Node::Binary(op, left, right) => {
            let left = value(decl, left)?;
            let right = value(decl, right)?;
            in_range(decl, binary(*op, left, right))
        }
    }
}

/// A number of elements, from 1.
pub(crate) fn length_of(decl: u32, e: &Expr) -> Result<u32, NameErr>
    ensures { result ≡ length_of decl e.now }
{
    let n = value(decl, e)?;
    natural(1, decl, n)
}

/// Whether so many message ids from the base up are in range, with those of replies.
fn ids_fit(base: u32, slots: u32) -> bool
    ensures { result ≡ ids_fit base slots }
{
    u64::from(base) + u64::from(slots) + 100 <= (1 << 31) - 1
}

/// The base of a subsystem.
pub(crate) fn base_of(decl: u32, e: &Expr) -> Result<u32, NameErr>
    ensures value { Gives (λ x. x) result (base_of decl e.now) }
    ensures exact { result ≡ base_of decl e.now }
{
    let n = value(decl, e)?;
    let n = natural(0, decl, n)?;
    refuse(NameFault::Range, decl, !ids_fit(n, 0))?;
    Ok(n)
}
