// How an operator reads its operands, and what it gives.
ghost use Rattle.std.specs.Prelude.{◌≡◌, ◌<◌};
ghost use Rattle.machine.specs.Operand.{cardinal_in, cardinal?, natural, whether, answered};
ghost use Rattle.operands.specs.Sizes.{Sized};
ghost use Rattle.operands.specs.Operands.{Within, figure_of};

use machine::{Effect, Value};
use numbers::{NoNumber, Number};

// The bits of a negative numerator are a number above the largest Cardinal.
fn cardinal_in(a: Number) -> Option<u32>
    ensures { (result ≡ cardinal_in a.num a.den) × Within result }
{
    if a.den != 1 {
        return None;
    }
    let n = numbers::words::to_word(a.num);
    if n > 16777215 {
        return None;
    }
    Some(n)
}

pub fn cardinal(v: Value) -> Option<u32>
    ensures { (result ≡ cardinal? v) × Within result }
{
    match v {
        Value::Number(a) => cardinal_in(a),
        _ => None,
    }
}

pub fn figure(v: Value) -> Option<Number>
    ensures { result ≡ figure_of v }
{
    match v {
        Value::Number(a) => Some(a),
        _ => None,
    }
}

pub fn natural(n: u32) -> Number
    requires { n < 2147483648 }
    ensures { result ≡ natural n }
{
    Number {
        num: n as i32,
        den: 1,
    }
}

pub fn whether(b: bool) -> Option<Effect>
    ensures { (result ≡ whether b) × Sized result }
{
    Some(Effect::Gives(natural(u32::from(b))))
}

pub fn answered(a: Result<Number, NoNumber>) -> Option<Effect>
    ensures { (result ≡ answered a) × Sized result }
{
    match a {
        Ok(n) => Some(Effect::Gives(n)),
        Err(_) => None,
    }
}
