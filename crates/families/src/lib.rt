// Operators without a body, by their family: one function over all of them, with what a family asks for most done in line (docs/DECISIONS.md,
// D73). An operator with its body has a way of its own.
#![tactic(auto)]

mod kinds; // the families

ghost use Rattle.std.specs.Prelude.{◌≡◌, ℕ, ◌+◌, ◌<◌, ◌≤◌};
ghost use Rattle.machine.specs.declared.Literal.TheVariants.{Plain, WithBody};
ghost use Rattle.machine.specs.declared.Op.{Op};
ghost use Rattle.machine.specs.Operators.{op_of, arity_of, effect_of};
ghost use Rattle.machine.specs.Step.{execute};
ghost use Rattle.machine.specs.Engine.{affected};
ghost use Rattle.operands.specs.Sizes.{Small, Sized};
ghost use Rattle.names.specs.Names.{both};
ghost use Rattle.state.specs.Layout.{Busy, Tried};
ghost use Rattle.origins.specs.Bodies.{Short};

use machine::{Effect, Next, Value, Work};
use state::Registers;

// A family of operators without a body: what each pops, what it asks for, and how that is done.
pub trait Family: Copy {
    // The operator that it is.
    ghost op: { Self → Op };

    fn arity(self) -> usize
        ensures { (result ≡ arity_of (op self)) × (result ≤ 2) };

    fn effect(self, x: Value, y: Value) -> Option<Effect>
        requires { Small x × Small y }
        ensures { (result ≡ effect_of (op self) x y) × Sized result };

    // What the family asks for most is done in line, where the effect need not go through memory: mostly a number.
    fn affect<'a>(
        w: &mut [u8],
        r: Registers,
        pre: &'a [u8],
        body: &'a [u8],
        e: Option<Effect>,
    ) -> Option<Registers>
        requires { Busy w.old r × Short pre.now body.now × Sized e }
        ensures { Tried (affected (both pre.now body.now) e) w.old r w.new result }
    {
        match e {
            Some(Effect::Gives(a)) => state::stack::push_number(w, r, a),
            _ => effects::affect(w, r, pre, body, e),
        }
    }
}

// An operator without a body: the values that it pops must stand above the topmost mark.
pub fn on<'a, F: Family>(
    w: &mut [u8],
    r: Registers,
    pre: &'a [u8],
    body: &'a [u8],
    o: F,
) -> Option<Registers>
    requires { Busy w.old r × Short pre.now body.now }
    ensures { (n : ℕ) → F.op o ≡ op_of n → Tried (execute (both pre.now body.now) (Plain n)) w.old r w.new result }
{
    let a = o.arity();
    let t = state::stack::tops(w, r.height);
    if a > t.count {
        return None;
    }
    let x = state::values::value_of(t.first);
    let y = state::values::value_of(t.second);
    let e = o.effect(x, y);
    let q = Registers {
        height: r.height - a,
        ..r
    };
    F::affect(w, q, pre, body, e)
}

// An operator that holds a body: it is entered, or passed over.
fn affect_body<'a>(
    w: &mut [u8],
    r: Registers,
    pre: &'a [u8],
    body: &'a [u8],
    e: Option<Effect>,
) -> Option<Registers>
    requires { Busy w.old r × Short pre.now body.now × Sized e }
    ensures { Tried (affected (both pre.now body.now) e) w.old r w.new result }
{
    match e {
        Some(Effect::Acts(Next::Inline { start, len, owes })) => effects::inline(
            w, r, pre, body, start, len, owes,
        ),
        Some(Effect::Acts(Next::Works(Work::Nothing))) => Some(r),
        _ => effects::affect(w, r, pre, body, e),
    }
}

// An operator with its body. As a family it would be no shorter: its effect takes where the body stands, and one value alone.
pub fn holder<'a>(
    w: &mut [u8],
    r: Registers,
    pre: &'a [u8],
    body: &'a [u8],
    n: u16,
    start: u32,
    len: u32,
) -> Option<Registers>
    requires { Busy w.old r × Short pre.now body.now × (start + len < 4294967296) }
    ensures { Tried (execute (both pre.now body.now) (WithBody n start len)) w.old r w.new result }
{
    let o = numbering::body_op_of(n);
    let a = operators::control::arity(o);
    let t = state::stack::tops(w, r.height);
    if a > t.count {
        return None;
    }
    let x = state::values::value_of(t.first);
    let e = operators::control::effect(o, start, len, x);
    let q = Registers {
        height: r.height - a,
        ..r
    };
    affect_body(w, q, pre, body, e)
}
