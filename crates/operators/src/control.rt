// 2.4.5 and 2.4.7: operators that hold a body, of which the start and the length are given.
ghost use Rattle.std.specs.Prelude.{◌≡◌, ◌+◌, ◌<◌, ◌≤◌};
ghost use Rattle.machine.specs.declared.BodyOp.TheVariants.{If, IfElse};
ghost use Rattle.machine.specs.Ops.Control.{body_arity, body_effect};
ghost use Rattle.operands.specs.Sizes.{Sized};

use machine::{BodyOp, Effect, Next, Value, Work};
use operands::values;

pub fn arity(o: BodyOp) -> usize
    ensures { (result ≡ body_arity o) × (result ≤ 2) }
{
    match o {
        BodyOp::MakeSimpleCo | BodyOp::DoSaveSimpleBody | BodyOp::PassOver => 0,
        BodyOp::If | BodyOp::IfElse => 1,
    }
}

// <i> IF {..} →
fn if_so(start: u32, len: u32, x: Value) -> Option<Effect>
    requires { start + len < 4294967296 }
    ensures { (result ≡ body_effect If start len x) × Sized result }
{
    let i = values::cardinal(x)?;
    if i == 0 {
        return Some(Effect::Acts(Next::Works(Work::Nothing)));
    }
    Some(Effect::Acts(Next::Inline {
        start,
        len,
        owes: false,
    }))
}

// <i> IFELSE {..} → <1> if the body is not run, and <0> after it if it is
fn if_else(start: u32, len: u32, x: Value) -> Option<Effect>
    requires { start + len < 4294967296 }
    ensures { (result ≡ body_effect IfElse start len x) × Sized result }
{
    let i = values::cardinal(x)?;
    if i == 0 {
        return Some(Effect::Gives(values::natural(1)));
    }
    Some(Effect::Acts(Next::Inline {
        start,
        len,
        owes: true,
    }))
}

pub fn effect(o: BodyOp, start: u32, len: u32, x: Value) -> Option<Effect>
    requires { start + len < 4294967296 }
    ensures { (result ≡ body_effect o start len x) × Sized result }
{
    match o {
        // {..} MAKESIMPLECO → <o>
        BodyOp::MakeSimpleCo => Some(Effect::Acts(Next::Works(Work::Compose { start, len }))),
        // {..} DOSAVESIMPLEBODY →
        BodyOp::DoSaveSimpleBody => Some(Effect::Acts(Next::Inline {
            start,
            len,
            owes: false,
        })),
        BodyOp::If => if_so(start, len, x),
        BodyOp::IfElse => if_else(start, len, x),
        // IFCOPY, CORRECT
        BodyOp::PassOver => Some(Effect::Acts(Next::Works(Work::Nothing))),
    }
}
