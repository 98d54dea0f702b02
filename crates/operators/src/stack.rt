// 2.4.6: operators on the stack.
ghost use Rattle.std.specs.Prelude.{◌≡◌, ◌≤◌};
ghost use Rattle.machine.specs.declared.StackOp.TheVariants.{Roll, Error};
ghost use Rattle.machine.specs.Ops.Stack.{stack_arity, mild_code, stack_effect};
ghost use Rattle.operands.specs.Sizes.{Sized};

use machine::{Effect, Next, StackOp, Value, Work};
use operands::values;

pub fn arity(o: StackOp) -> usize
    ensures { (result ≡ stack_arity o) × (result ≤ 2) }
{
    match o {
        StackOp::Dup | StackOp::Exch | StackOp::Unmark0 | StackOp::Count | StackOp::Nop => 0,
        StackOp::Pop | StackOp::Copy | StackOp::Mark | StackOp::Unmark => 1,
        StackOp::Roll | StackOp::Error => 2,
    }
}

// <x1> .. <xn> <n> <m> ROLL → the first m of them on top
fn roll(x: Value, y: Value) -> Option<Effect>
    ensures { (result ≡ stack_effect Roll x y) × Sized result }
{
    let m = values::cardinal(x)?;
    let n = values::cardinal(y)?;
    if m > n {
        return None;
    }
    Some(Effect::Acts(Next::Works(Work::Turn { depth: n, first: m })))
}

// Whether a code of ERROR is no master error.
fn is_mild(n: u32) -> bool
    ensures { result ≡ mild_code n }
{
    matches!(n, 10 | 50 | 60 | 100)
}

// <message> <code> ERROR →
fn error(x: Value, y: Value) -> Option<Effect>
    ensures { (result ≡ stack_effect Error x y) × Sized result }
{
    let n = values::cardinal(x)?;
    let Value::Vector { .. } = y else {
        return None;
    };
    if !is_mild(n) {
        return None;
    }
    Some(Effect::Acts(Next::Works(Work::Report(y))))
}

pub fn effect(o: StackOp, x: Value, y: Value) -> Option<Effect>
    ensures { (result ≡ stack_effect o x y) × Sized result }
{
    match o {
        // <x> POP →; NOP →
        StackOp::Pop | StackOp::Nop => Some(Effect::Acts(Next::Works(Work::Nothing))),
        // <x1> .. <xn> <n> COPY → <x1> .. <xn> <x1> .. <xn>
        StackOp::Copy => {
            let count = values::cardinal(x)?;
            Some(Effect::Acts(Next::Works(Work::Repeat { count })))
        }
        // <x> DUP → <x> <x>
        StackOp::Dup => Some(Effect::Acts(Next::Works(Work::Repeat { count: 1 }))),
        StackOp::Roll => roll(x, y),
        // <x> <y> EXCH → <y> <x>
        StackOp::Exch => Some(Effect::Acts(Next::Works(Work::Turn { depth: 2, first: 1 }))),
        // <x1> .. <xn> <n> MARK → <mark> <x1> .. <xn>
        StackOp::Mark => {
            let count = values::cardinal(x)?;
            Some(Effect::Acts(Next::Place { count }))
        }
        // <mark> <x1> .. <xn> <n> UNMARK → <x1> .. <xn>
        StackOp::Unmark => {
            let count = values::cardinal(x)?;
            Some(Effect::Acts(Next::Remove { count }))
        }
        // <mark> UNMARK0 →
        StackOp::Unmark0 => Some(Effect::Acts(Next::Remove { count: 0 })),
        // <x1> .. <xn> COUNT → <x1> .. <xn> <n>
        StackOp::Count => Some(Effect::Acts(Next::Tally)),
        StackOp::Error => error(x, y),
    }
}
