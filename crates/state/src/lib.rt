// The state of the machine in the lent table, and the operations on values and the stack; `contexts`, `recovery` and `store` have the
// others that the engine is made of. Above these crates nothing knows where in the table a thing stands. How a value lies in a slot is
// said by `Layout`; slots are made by the operations that push them.
#![tactic(auto)]

ghost use Rattle.std.specs.Prelude.{◌≡◌, ◌+◌, ◌<◌};

pub mod stack; // the values above the topmost mark
pub mod values; // a value read from a slot, a number put into one

// What of the state is no part of the table: entries of the stack, contexts in progress (0: the run has ended), cells used, and the
// counts. An operation that may fail answers none where it fails; the table is then as it was.
#[derive(Clone, Copy)]
pub struct Registers {
    pub height: usize,
    pub depth: usize,
    pub used: usize,
    pub steps: usize,
    pub errors: usize,
    pub skipping: bool,
}

// The same registers, field by field, so that the compiler keeps them out of memory around a call.
pub fn afresh(r: Registers) -> Registers
    ensures { result ≡ r }
{
    Registers {
        height: r.height,
        depth: r.depth,
        used: r.used,
        steps: r.steps,
        errors: r.errors,
        skipping: r.skipping,
    }
}

// A step more is counted.
pub fn counted(r: Registers) -> Registers
    requires { r.steps < 4294967295 }
    ensures { result ≡ record { height = r.height; depth = r.depth; used = r.used; steps = r.steps + 1; errors = r.errors; skipping = r.skipping } }
{
    Registers {
        steps: r.steps + 1,
        ..r
    }
}

// A place in the bytes of an origin.
#[derive(Clone, Copy)]
pub struct Place {
    pub origin: u32,
    pub start: u32,
}

// Where recovery ends: so many entries, so many contexts.
#[derive(Clone, Copy)]
pub struct Landing {
    pub height: usize,
    pub depth: usize,
}

// The two topmost values above the topmost mark, and how many of them there are.
#[derive(Clone, Copy)]
pub struct Tops {
    pub count: usize,
    pub first: table::Slot,
    pub second: table::Slot,
}
