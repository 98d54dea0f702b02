// 2.4.3: operators on vectors.
ghost use Rattle.std.specs.Prelude.{◌≡◌, ◌≤◌};
ghost use Rattle.machine.specs.declared.Value.{Value};
ghost use Rattle.machine.specs.declared.VectorOp.TheVariants.{Get, MakeVecLu, Shape};
ghost use Rattle.machine.specs.Ops.Vector.{vector_arity, vector_effect};
ghost use Rattle.operands.specs.Sizes.{Small, Sized};

use machine::{Effect, Next, Value, VectorOp, Work};
use operands::values;

pub fn arity(o: VectorOp) -> usize
    ensures { (result ≡ vector_arity o) × (result ≤ 2) }
{
    match o {
        VectorOp::Get | VectorOp::MakeVecLu => 2,
        VectorOp::MakeVec | VectorOp::Shape => 1,
    }
}

// <v> <j> GET → <x>
fn get(x: Value, y: Value) -> Option<Effect>
    requires { Small y }
    ensures { (result ≡ vector_effect Get x y) × Sized result }
{
    let j = values::cardinal(x)?;
    let Value::Vector {
        first,
        lower,
        count,
    } = y
    else {
        return None;
    };
    if j < lower || j >= lower + count {
        return None;
    }
    Some(Effect::Acts(Next::Works(Work::Element {
        cell: first + (j - lower),
    })))
}

// <x1> .. <xn> <l> <u> MAKEVECLU → <v>, n = u - l + 1
fn make_vec_lu(x: Value, y: Value) -> Option<Effect>
    ensures { (result ≡ vector_effect MakeVecLu x y) × Sized result }
{
    let u = values::cardinal(x)?;
    let l = values::cardinal(y)?;
    if l > u + 1 {
        return None;
    }
    Some(Effect::Acts(Next::Works(Work::Build {
        lower: l,
        count: u + 1 - l,
    })))
}

// <v> SHAPE → <l> <n>
fn shape(x: Value) -> Option<Effect>
    requires { Small x }
    ensures { ((y : Value) → result ≡ vector_effect Shape x y) × Sized result }
{
    let Value::Vector { lower, count, .. } = x else {
        return None;
    };
    Some(Effect::Gives2(values::natural(lower), values::natural(count)))
}

pub fn effect(o: VectorOp, x: Value, y: Value) -> Option<Effect>
    requires { Small x × Small y }
    ensures { (result ≡ vector_effect o x y) × Sized result }
{
    match o {
        VectorOp::Get => get(x, y),
        VectorOp::MakeVecLu => make_vec_lu(x, y),
        // <x1> .. <xn> <n> MAKEVEC → <v>
        VectorOp::MakeVec => {
            let count = values::cardinal(x)?;
            Some(Effect::Acts(Next::Works(Work::Build { lower: 0, count })))
        }
        VectorOp::Shape => shape(x),
    }
}
