// 2.4.4: the running frame, of 50 elements.
ghost use Rattle.std.specs.Prelude.{◌≡◌, ◌≤◌};
ghost use Rattle.machine.specs.Ops.Frame.{frame_arity, frame_effect};
ghost use Rattle.operands.specs.Sizes.{Sized};

use machine::{Effect, FrameOp, Next, Value, Work};
use operands::values;

pub fn arity(o: FrameOp) -> usize
    ensures { (result ≡ frame_arity o) × (result ≤ 2) }
{
    match o {
        FrameOp::Fget | FrameOp::Fset => 1,
    }
}

// <j> FGET → <x>; <x> <j> FSET → <>, of which the engine takes x.
pub fn effect(o: FrameOp, x: Value) -> Option<Effect>
    ensures { (result ≡ frame_effect o x) × Sized result }
{
    let j = values::cardinal(x)?;
    if j >= 50 {
        return None;
    }
    match o {
        FrameOp::Fget => Some(Effect::Acts(Next::Works(Work::Fetch { j }))),
        FrameOp::Fset => Some(Effect::Acts(Next::Store { j })),
    }
}
