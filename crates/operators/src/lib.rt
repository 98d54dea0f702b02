// What each operator makes of the values that it pops: a file for each section of document 000; 2.4.3 and 2.4.9 are in `reckoning`. There is
// no state here. What of an operator's work needs the state is told to the engine, as a part that is its own.
#![tactic(auto)]

pub mod call; // 2.4.5
pub mod control; // 2.4.5 and 2.4.7: operators that hold a body
pub mod frame; // 2.4.4
pub mod stack; // 2.4.6
pub mod test; // 2.4.8

ghost use Rattle.std.specs.Prelude.{◌≡◌, ◌≤◌};
ghost use Rattle.machine.specs.Operators.{arity_of, effect_of};
ghost use Rattle.operands.specs.Sizes.{Small, Sized};

use machine::{Effect, Op, Value};
use reckoning::{arith, vector};

// How many values an operator pops before its effect is known.
pub fn arity_of(o: Op) -> usize
    ensures { (result ≡ arity_of o) × (result ≤ 2) }
{
    match o {
        Op::OnVectors(k) => vector::arity(k),
        Op::OnFrame(k) => frame::arity(k),
        Op::Calls(_) => 1,
        Op::OnStack(k) => stack::arity(k),
        Op::Tests(k) => test::arity(k),
        Op::Reckons(k) => arith::arity(k),
        Op::Unknown => 0,
    }
}

// The effect of an operator: x is the topmost value, y the next. By family only: a new operator of an old family changes nothing here.
pub fn effect_of(o: Op, x: Value, y: Value) -> Option<Effect>
    requires { Small x × Small y }
    ensures { (result ≡ effect_of o x y) × Sized result }
{
    match o {
        Op::OnVectors(k) => vector::effect(k, x, y),
        Op::OnFrame(k) => frame::effect(k, x),
        Op::Calls(k) => call::effect(k, x),
        Op::OnStack(k) => stack::effect(k, x, y),
        Op::Tests(k) => test::effect(k, x, y),
        Op::Reckons(k) => arith::effect(k, x, y),
        Op::Unknown => None,
    }
}
