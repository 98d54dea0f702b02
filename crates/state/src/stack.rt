// The values above the topmost mark: looked at, pushed, repeated and turned.
ghost use Rattle.std.specs.Prelude.{◌≡◌, false, ◌+◌, ◌-◌, ◌≤◌, leb, length};
ghost use Rattle.table.specs.Slots.{slots, rolled};
ghost use Rattle.machine.specs.declared.Value.TheVariants.{Number};
ghost use Rattle.machine.specs.Contexts.{above};
ghost use Rattle.machine.specs.Engine.{push, repeat, turn};
ghost use Rattle.state.specs.Layout.{value_in, stack_of, Busy, Tried, Topmost};
ghost use Rattle.state.specs.Operations.{push_two, utter};

use crate::{Registers, Tops};
use table::Slot;

// Whether n values stand above the topmost mark.
pub fn has(w: &[u8], height: usize, n: usize) -> bool
    requires { (height ≤ 128) × (48000 ≤ length w.now) }
    ensures { result ≡ leb n (length (above (stack_of (slots w.now) height))) }
{
    if n > height {
        return false;
    }
    for i in 0..n {
        if table::slots::get(w, height - 1 - i).kind == 5 {
            return false;
        }
    }
    true
}

// The two topmost values; where there is none, 0.
pub fn tops(w: &[u8], height: usize) -> Tops
    requires { (height ≤ 128) × (48000 ≤ length w.now) }
    ensures { Topmost (above (stack_of (slots w.now) height)) result }
{
    let zero = crate::values::zero();
    if height == 0 {
        return Tops {
            count: 0,
            first: zero,
            second: zero,
        };
    }
    let first = table::slots::get(w, height - 1);
    if first.kind == 5 {
        return Tops {
            count: 0,
            first: zero,
            second: zero,
        };
    }
    if height == 1 {
        return Tops {
            count: 1,
            first,
            second: zero,
        };
    }
    let second = table::slots::get(w, height - 2);
    if second.kind == 5 {
        return Tops {
            count: 1,
            first,
            second: zero,
        };
    }
    Tops {
        count: 2,
        first,
        second,
    }
}

pub fn push_slot(w: &mut [u8], r: Registers, v: Slot) -> Option<Registers>
    requires { Busy w.old r × (v.kind ≡ 5 → ⊥) }
    ensures { Tried (push (value_in v)) w.old r w.new result }
{
    let height = r.height;
    if height >= 128 {
        return None;
    }
    table::slots::put(w, height, v);
    Some(Registers {
        height: height + 1,
        ..r
    })
}

pub fn push_number(w: &mut [u8], r: Registers, a: numbers::Number) -> Option<Registers>
    requires { Busy w.old r }
    ensures { Tried (push (Number a)) w.old r w.new result }
{
    let u = crate::values::number_slot(a);
    push_slot(w, r, u)
}

// An identifier of the running body's origin, its token at `start`.
pub fn push_name(w: &mut [u8], r: Registers, start: u32, len: u32) -> Option<Registers>
    requires { Busy w.old r }
    ensures { Tried (utter start len) w.old r w.new result }
{
    let d = r.depth;
    let c = table::slots::get(w, 1752 + (d - 1));
    push_slot(
        w,
        r,
        Slot {
            kind: 2,
            a: c.a,
            b: start,
            c: len,
            d: 0,
        },
    )
}

// Two values, the second on top.
fn push_slots(w: &mut [u8], r: Registers, v: Slot, u: Slot) -> Option<Registers>
    requires { Busy w.old r × (v.kind ≡ 5 → ⊥) × (u.kind ≡ 5 → ⊥) }
    ensures { Tried (push_two (value_in v) (value_in u)) w.old r w.new result }
{
    let height = r.height;
    if height >= 127 {
        return None;
    }
    table::slots::put(w, height, v);
    table::slots::put(w, height + 1, u);
    Some(Registers {
        height: height + 2,
        ..r
    })
}

// Two numbers, the second on top.
pub fn push_two(
    w: &mut [u8],
    r: Registers,
    a: numbers::Number,
    b: numbers::Number,
) -> Option<Registers>
    requires { Busy w.old r }
    ensures { Tried (push_two (Number a) (Number b)) w.old r w.new result }
{
    let x = crate::values::number_slot(a);
    let y = crate::values::number_slot(b);
    push_slots(w, r, x, y)
}

// EXCH: the two topmost values change places.
pub fn exchange(w: &mut [u8], r: Registers) -> Option<Registers>
    requires { Busy w.old r }
    ensures { Tried (turn 2 1) w.old r w.new result }
{
    let t = tops(w, r.height);
    if t.count < 2 {
        return None;
    }
    let x = crate::values::plain(t.first);
    let y = crate::values::plain(t.second);
    let q = Registers {
        height: r.height - 2,
        ..r
    };
    push_slots(w, q, x, y)
}

// COPY: the topmost n values once more.
pub fn repeat(w: &mut [u8], r: Registers, n: usize) -> Option<Registers>
    requires { Busy w.old r }
    ensures { Tried (repeat n) w.old r w.new result }
{
    let height = r.height;
    let there = has(w, height, n);
    if there {
        if height + n > 128 {
            return None;
        }
        table::slots::copy(w, height - n, height, n);
        return Some(Registers {
            height: height + n,
            ..r
        });
    }
    None
}

// Of the n slots from a on the upper j go under the others, by way of the room for entries.
fn put_turned(w: &mut [u8], a: usize, n: usize, j: usize)
    requires { (a + n ≤ 128) × (j ≤ n) × (48000 ≤ length w.old) }
    ensures { slots w.new ≡ rolled (slots w.old) a n j 1814 }
{
    table::slots::copy(w, a, 1814, n);
    table::slots::copy(w, 1814 + (n - j), a, j);
    table::slots::copy(w, 1814, a + j, n - j);
}

// ROLL: of the topmost n values the first m pushed become the topmost.
pub fn turn(w: &mut [u8], r: Registers, n: usize, m: usize) -> Option<Registers>
    requires { Busy w.old r }
    ensures { Tried (turn n m) w.old r w.new result }
{
    let height = r.height;
    let there = has(w, height, n);
    if there {
        let j = under(n, m);
        put_turned(w, height - n, n, j);
        return Some(r);
    }
    None
}

// How many of n go under m others.
fn under(n: usize, m: usize) -> usize
    ensures { result ≡ n - m }
{
    if m < n {
        return n - m;
    }
    0
}
