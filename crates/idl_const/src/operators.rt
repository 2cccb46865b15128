//! What each operator gives.

ghost use Rattle.std.specs.Prelude.{◌≡◌, ◌<◌, ◌^◌};
ghost use Rattle.idl_const.specs.Values.{unary_value, binary_value, places};

use crate::{BinaryOp, ConstErr, UnaryOp};

/// What the operator gives before a number.
pub fn unary(op: UnaryOp, a: i128) -> Result<i128, ConstErr>
    ensures { result ≡ unary_value op a }
{
    match op {
        UnaryOp::Minus => a.checked_neg().ok_or(ConstErr::Overflow),
        UnaryOp::Plus => Ok(a),
    }
}

/// What the operator gives between two numbers.
pub fn binary(op: BinaryOp, a: i128, b: i128) -> Result<i128, ConstErr>
    ensures { result ≡ binary_value op a b }
{
    match op {
        BinaryOp::Or => Ok(a | b),
        BinaryOp::Xor => Ok(a ^ b),
        BinaryOp::And => Ok(a & b),
        BinaryOp::Left => left(a, b),
        BinaryOp::Right => right(a, b),
        BinaryOp::Add => a.checked_add(b).ok_or(ConstErr::Overflow),
        BinaryOp::Sub => a.checked_sub(b).ok_or(ConstErr::Overflow),
        BinaryOp::Mul => a.checked_mul(b).ok_or(ConstErr::Overflow),
        BinaryOp::Div => quotient(a, b),
        BinaryOp::Rem => remainder(a, b),
    }
}

/// How many places a shift has.
fn places(b: i128) -> Result<u32, ConstErr>
    ensures { result ≡ places b }
{
    if b < 0 || 63 < b {
        return Err(ConstErr::Shift);
    }
    Ok(b as u32)
}

fn left(a: i128, b: i128) -> Result<i128, ConstErr>
    ensures { result ≡ binary_value BinaryOp.Left a b }
{
    let power = 1i128 << places(b)?;
    a.checked_mul(power).ok_or(ConstErr::Overflow)
}

fn right(a: i128, b: i128) -> Result<i128, ConstErr>
    ensures { result ≡ binary_value BinaryOp.Right a b }
{
    Ok(a >> places(b)?)
}

fn quotient(a: i128, b: i128) -> Result<i128, ConstErr>
    ensures { result ≡ binary_value BinaryOp.Div a b }
{
    if b == 0 {
        return Err(ConstErr::ZeroDivisor);
    }
    a.checked_div(b).ok_or(ConstErr::Overflow)
}

fn remainder(a: i128, b: i128) -> Result<i128, ConstErr>
    ensures { result ≡ binary_value BinaryOp.Rem a b }
{
    if b == 0 {
        return Err(ConstErr::ZeroDivisor);
    }
    Ok(a.wrapping_rem(b))
}
