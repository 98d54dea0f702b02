// The families of operators without a body.
#![tactic(auto, unfolding(machine::specs::Operators::arity_of, machine::specs::Operators::effect_of))]

ghost use Rattle.machine.specs.declared.Op.TheVariants.{OnVectors, OnStack, Tests, Reckons};

use crate::Family;
use machine::{ArithOp, Effect, Next, Op, StackOp, TestOp, Value, VectorOp, Work};
use state::Registers;

// GET, MAKEVECLU, MAKEVEC, SHAPE: two numbers, an element, a new vector
impl Family for VectorOp {
    ghost op = { OnVectors };

    fn arity(self) -> usize {
        reckoning::vector::arity(self)
    }

    fn effect(self, x: Value, y: Value) -> Option<Effect> {
        reckoning::vector::effect(self, x, y)
    }

    fn affect<'a>(
        w: &mut [u8],
        r: Registers,
        pre: &'a [u8],
        body: &'a [u8],
        e: Option<Effect>,
    ) -> Option<Registers> {
        match e {
            Some(Effect::Gives2(a, b)) => state::stack::push_two(w, r, a, b),
            Some(Effect::Acts(Next::Works(Work::Element { cell }))) => store::cells::element(
                w,
                r,
                table::words::size(cell),
            ),
            Some(Effect::Acts(Next::Works(Work::Build { lower, count }))) => store::cells::build(
                w,
                r,
                lower,
                table::words::size(count),
            ),
            _ => effects::affect(w, r, pre, body, e),
        }
    }
}

// EQ, GT, GE, AND, OR, NOT, TYPE
impl Family for TestOp {
    ghost op = { Tests };

    fn arity(self) -> usize {
        operators::test::arity(self)
    }

    fn effect(self, x: Value, y: Value) -> Option<Effect> {
        operators::test::effect(self, x, y)
    }
}

// The arithmetic of 2.4.9
impl Family for ArithOp {
    ghost op = { Reckons };

    fn arity(self) -> usize {
        reckoning::arith::arity(self)
    }

    fn effect(self, x: Value, y: Value) -> Option<Effect> {
        reckoning::arith::effect(self, x, y)
    }
}

// 2.4.6: of POP and NOP, before a comment, nothing is left to do
impl Family for StackOp {
    ghost op = { OnStack };

    fn arity(self) -> usize {
        operators::stack::arity(self)
    }

    fn effect(self, x: Value, y: Value) -> Option<Effect> {
        operators::stack::effect(self, x, y)
    }

    fn affect<'a>(
        w: &mut [u8],
        r: Registers,
        pre: &'a [u8],
        body: &'a [u8],
        e: Option<Effect>,
    ) -> Option<Registers> {
        match e {
            Some(Effect::Acts(Next::Works(Work::Nothing))) => Some(r),
            _ => effects::affect(w, r, pre, body, e),
        }
    }
}

// Any operator, with none of it done in line
impl Family for Op {
    ghost op = { λ o. o };

    fn arity(self) -> usize {
        operators::arity_of(self)
    }

    fn effect(self, x: Value, y: Value) -> Option<Effect> {
        operators::effect_of(self, x, y)
    }

    fn affect<'a>(
        w: &mut [u8],
        r: Registers,
        pre: &'a [u8],
        body: &'a [u8],
        e: Option<Effect>,
    ) -> Option<Registers> {
        effects::affect(w, r, pre, body, e)
    }
}
