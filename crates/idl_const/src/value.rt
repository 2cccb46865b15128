//! The value of an expression.

ghost use Rattle.std.specs.Prelude.{◌≡◌};
ghost use Rattle.idl_const.specs.Exprs.{seen};
ghost use Rattle.idl_const.specs.Values.{value_of, constant_of};

use crate::{Expr, operators};
use kit_base::{Listed, Name};

/// The constants that are in reach, each with its number. Of two with one name the first counts.
pub type Consts = Listed<(Name, i128)>;

/// Why an expression has no value.
#[derive(Clone, Copy, Debug, PartialEq, Eq)]
pub enum ConstErr {
    /// A name is none of the constants.
    Unknown,
    /// A result lies outside 128 signed bits.
    Overflow,
    /// A number is divided by 0.
    ZeroDivisor,
    /// A shift is by fewer than 0 or more than 63 places.
    Shift,
}

/// The value of an expression, or its first fault: the left operand's, then the right operand's,
/// then the operator's own.
pub fn eval(expr: &Expr, consts: &Consts) -> Result<i128, ConstErr>
    ensures { result ≡ value_of consts.now (seen expr.now) }
{
    match expr {
        Expr::Num(n) => Ok(*n),
        Expr::Name(name) => constant(name, consts),
        Expr::Unary(op, operand) => operators::unary(*op, eval(operand, consts)?),
        Expr::Binary(op, left, right) => {
            let left = eval(left, consts)?;
            let right = eval(right, consts)?;
            operators::binary(*op, left, right)
        }
    }
}

/// The number of the first constant of this name.
fn constant(name: &Name, consts: &Consts) -> Result<i128, ConstErr>
    ensures { result ≡ constant_of name.now consts.now }
{
    for (known, number) in consts.as_slice() {
        if known.as_slice() == name.as_slice() {
            return Ok(*number);
        }
    }
    Err(ConstErr::Unknown)
}
