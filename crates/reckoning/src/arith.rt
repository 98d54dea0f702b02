// 2.4.9: arithmetic, by `numbers`. A result outside the limits and a division by zero are failures.
ghost use Rattle.std.specs.Prelude.{◌≡◌, ◌≤◌};
ghost use Rattle.machine.specs.Ops.Arith.{arith_arity, arith_effect};
ghost use Rattle.operands.specs.Sizes.{Sized};
ghost use Rattle.reckoning.specs.Reckoning.{reckoned};

use machine::{ArithOp, Effect, Value};
use numbers::{NoNumber, Number};
use operands::values;

pub fn arity(o: ArithOp) -> usize
    ensures { (result ≡ arith_arity o) × (result ≤ 2) }
{
    match o {
        ArithOp::Neg
        | ArithOp::Abs
        | ArithOp::Floor
        | ArithOp::Ceiling
        | ArithOp::Trunc
        | ArithOp::Round => 1,
        ArithOp::Add | ArithOp::Sub | ArithOp::Mul | ArithOp::Div | ArithOp::Mod | ArithOp::Rem =>
            2,
    }
}

// <a> <b> ADD → <c>, and so on; an operator on one number takes b: <b> NEG → <c>.
fn reckon(o: ArithOp, a: Number, b: Number) -> Result<Number, NoNumber>
    ensures { result ≡ reckoned o a b }
{
    match o {
        ArithOp::Add => arithmetic::sum(a, b),
        ArithOp::Sub => arithmetic::difference(a, b),
        ArithOp::Neg => arithmetic::negative(b),
        ArithOp::Abs => arithmetic::size(b),
        ArithOp::Floor => arithmetic::floor(b),
        ArithOp::Ceiling => arithmetic::ceiling(b),
        ArithOp::Trunc => arithmetic::trunc(b),
        ArithOp::Round => arithmetic::round(b),
        ArithOp::Mul => arithmetic::product(a, b),
        ArithOp::Div => arithmetic::quotient(a, b),
        ArithOp::Mod => arithmetic::modulo(a, b),
        ArithOp::Rem => arithmetic::remainder(a, b),
    }
}

// An operator on one number leaves y unread.
pub fn effect(o: ArithOp, x: Value, y: Value) -> Option<Effect>
    ensures { (result ≡ arith_effect o x y) × Sized result }
{
    let b = values::figure(x)?;
    if arity(o) == 1 {
        return values::answered(reckon(o, b, b));
    }
    let a = values::figure(y)?;
    values::answered(reckon(o, a, b))
}
