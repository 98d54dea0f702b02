// 2.4.8: tests. A truth is the number 1, a falsehood 0; a Cardinal that is read is true unless it is 0.
ghost use Rattle.std.specs.Prelude.{◌≡◌, ◌≤◌};
ghost use Rattle.numbers.specs.Arith.{order_of};
ghost use Rattle.machine.specs.declared.Value.{Value};
ghost use Rattle.machine.specs.declared.TestOp.TheVariants.{Eq, Gt, Ge, And, Or};
ghost use Rattle.machine.specs.Ops.Test.{test_arity, is_less, is_equal, type_of, test_effect};
ghost use Rattle.operands.specs.Sizes.{Sized};

use machine::{Effect, Next, TestOp, Value, Work};
use numbers::Number;
use operands::values;
use std::cmp::Ordering;

pub fn arity(o: TestOp) -> usize
    ensures { (result ≡ test_arity o) × (result ≤ 2) }
{
    match o {
        TestOp::Eq | TestOp::Gt | TestOp::Ge | TestOp::And | TestOp::Or => 2,
        TestOp::Not | TestOp::TypeOf => 1,
    }
}

fn is_less(a: Number, b: Number) -> bool
    ensures { result ≡ is_less (order_of a b) }
{
    match arithmetic::compare(a, b) {
        Ordering::Less => true,
        Ordering::Equal => false,
        Ordering::Greater => false,
    }
}

fn is_equal(a: Number, b: Number) -> bool
    ensures { result ≡ is_equal (order_of a b) }
{
    match arithmetic::compare(a, b) {
        Ordering::Less => false,
        Ordering::Equal => true,
        Ordering::Greater => false,
    }
}

// <a> <b> EQ → <c>: two numbers by their worth, two identifiers by their text, which is the engine's part.
fn eq(x: Value, y: Value) -> Option<Effect>
    ensures { (result ≡ test_effect Eq x y) × Sized result }
{
    match (x, y) {
        (Value::Number(a), Value::Number(b)) => values::whether(is_equal(a, b)),
        (Value::Identifier { .. }, Value::Identifier { .. }) => {
            Some(Effect::Acts(Next::Works(Work::Match(x, y))))
        }
        _ => values::whether(false),
    }
}

// <a> <b> GT → <c>: whether a > b
fn gt(x: Value, y: Value) -> Option<Effect>
    ensures { (result ≡ test_effect Gt x y) × Sized result }
{
    let a = values::figure(y)?;
    let b = values::figure(x)?;
    values::whether(is_less(b, a))
}

// <a> <b> GE → <c>: whether a ≥ b
fn ge(x: Value, y: Value) -> Option<Effect>
    ensures { (result ≡ test_effect Ge x y) × Sized result }
{
    let a = values::figure(y)?;
    let b = values::figure(x)?;
    values::whether(!is_less(a, b))
}

// <a> <b> AND → <c>
fn and(x: Value, y: Value) -> Option<Effect>
    ensures { (result ≡ test_effect And x y) × Sized result }
{
    let a = values::cardinal(y)?;
    let b = values::cardinal(x)?;
    values::whether(a != 0 && b != 0)
}

// <a> <b> OR → <c>
fn or(x: Value, y: Value) -> Option<Effect>
    ensures { (result ≡ test_effect Or x y) × Sized result }
{
    let a = values::cardinal(y)?;
    let b = values::cardinal(x)?;
    values::whether(a != 0 || b != 0)
}

// The number of a type (appendix B.1).
fn type_number(x: Value) -> u32
    ensures { (result ≡ type_of x) × (result ≤ 4) }
{
    match x {
        Value::Number(_) => 1,
        Value::Identifier { .. } => 2,
        Value::Vector { .. } => 3,
        Value::Operator { .. } => 4,
    }
}

pub fn effect(o: TestOp, x: Value, y: Value) -> Option<Effect>
    ensures { (result ≡ test_effect o x y) × Sized result }
{
    match o {
        TestOp::Eq => eq(x, y),
        TestOp::Gt => gt(x, y),
        TestOp::Ge => ge(x, y),
        TestOp::And => and(x, y),
        TestOp::Or => or(x, y),
        // <b> NOT → <c>
        TestOp::Not => {
            let b = values::cardinal(x)?;
            values::whether(b == 0)
        }
        // <a> TYPE → <c>
        TestOp::TypeOf => Some(Effect::Gives(values::natural(type_number(x)))),
    }
}
