//! Values worked out by hand, where a sign or an edge decides.

use super::*;
use std::test::Fail;

#[test]
fn operators_at_their_edges(rt: HostRuntime) -> Result<(), Fail> {
    let consts = Consts::new(rt.alloc());
    for (op, a, b, want) in [
        (BinaryOp::Add, i128::MAX, 1, Err(ConstErr::Overflow)),
        (BinaryOp::Sub, -1, i128::MAX, Ok(i128::MIN)),
        (BinaryOp::Mul, i128::MIN, -1, Err(ConstErr::Overflow)),
        (BinaryOp::Div, -7, 2, Ok(-3)),
        (BinaryOp::Div, 0, 0, Err(ConstErr::ZeroDivisor)),
        (BinaryOp::Rem, -7, 2, Ok(-1)),
        (BinaryOp::Rem, i128::MIN, -1, Ok(0)),
        (BinaryOp::Left, 1, 64, Err(ConstErr::Shift)),
        (BinaryOp::Left, -(1 << 64), 63, Ok(i128::MIN)),
        (BinaryOp::Right, -5, 1, Ok(-3)),
        (BinaryOp::Or, -8, 5, Ok(-3)),
        (BinaryOp::Xor, -1, i128::MIN, Ok(i128::MAX)),
        (BinaryOp::And, -8, 13, Ok(8)),
    ] {
        let expr = Expr::binary(rt.alloc(), op, Expr::Num(a), Expr::Num(b))?;
        assert_eq!(rt; eval(&expr, &consts), want, "{op:?} of {a} and {b}");
    }
    let least = Expr::unary(rt.alloc(), UnaryOp::Minus, Expr::Num(i128::MIN))?;
    assert_eq!(rt; eval(&least, &consts), Err(ConstErr::Overflow));
    Ok(())
}
