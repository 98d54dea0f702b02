// 2.4.5: operators that run a composed operator. DOSAVE and DOSAVEALL act as DO.
ghost use Rattle.std.specs.Prelude.{◌≡◌};
ghost use Rattle.machine.specs.Ops.Call.{called, call_effect};
ghost use Rattle.operands.specs.Sizes.{Sized};

use machine::{CallOp, Effect, Next, Value};

// <o> DO →
fn called(x: Value) -> Option<Effect>
    ensures { (result ≡ called x) × Sized result }
{
    let Value::Operator {
        origin,
        start,
        len,
        first,
    } = x
    else {
        return None;
    };
    Some(Effect::Acts(Next::Call {
        origin,
        start,
        len,
        first,
    }))
}

pub fn effect(o: CallOp, x: Value) -> Option<Effect>
    ensures { (result ≡ call_effect o x) × Sized result }
{
    match o {
        CallOp::Do | CallOp::DoSave | CallOp::DoSaveAll => called(x),
    }
}
