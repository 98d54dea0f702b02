// Marks placed and removed, and the values above the topmost one counted.
#![tactic(auto)]

ghost use Rattle.std.specs.Prelude.{◌≡◌, ◌+◌, ◌-◌, ◌<◌, ◌≤◌, length};
ghost use Rattle.table.specs.Slots.{slots};
ghost use Rattle.machine.specs.Contexts.{above, beneath};
ghost use Rattle.machine.specs.Engine.{place, remove, tally};
ghost use Rattle.state.specs.Layout.{stack_of, Busy, Tried};
ghost use Rattle.state.specs.Operations.{mark_put};

use state::Registers;
use table::Slot;

// Where the values above the topmost mark begin. No mark stands at the height `clear` or above.
fn base(w: &[u8], height: usize, clear: usize) -> usize
    requires { (height ≤ 128) × (48000 ≤ length w.now) × (length (beneath (stack_of (slots w.now) height)) ≤ clear) }
    ensures { (result ≤ height) × (height - result ≡ length (above (stack_of (slots w.now) height))) }
{
    let mut i = height.min(clear);
    while i > 0 && table::slots::get(w, i - 1).kind != 5 {
        i -= 1;
    }
    i
}

// A mark of the context with the identity `id` under the n slots from a on, by way of the room for entries.
fn put_mark(w: &mut [u8], a: usize, n: usize, id: u32)
    requires { (a + n < 128) × (48000 ≤ length w.old) }
    ensures { slots w.new ≡ mark_put (slots w.old) a n id }
{
    table::slots::copy(w, a, 1814, n);
    table::slots::put(
        w,
        a,
        Slot {
            kind: 5,
            a: id,
            b: 0,
            c: 0,
            d: 0,
        },
    );
    table::slots::copy(w, 1814, a + 1, n);
}

// MARK: a mark of the running context under n values.
pub fn place(w: &mut [u8], r: Registers, n: usize) -> Option<Registers>
    requires { Busy w.old r }
    ensures { Tried (place n) w.old r w.new result }
{
    let height = r.height;
    let there = state::stack::has(w, height, n);
    if there {
        if height >= 128 {
            return None;
        }
        let d = r.depth;
        let c = table::slots::get(w, 1752 + (d - 1));
        put_mark(w, height - n, n, c.kind);
        return Some(Registers {
            height: height + 1,
            ..r
        });
    }
    None
}

// MARK under no value.
pub fn place_bare(w: &mut [u8], r: Registers) -> Option<Registers>
    requires { Busy w.old r }
    ensures { Tried (place 0) w.old r w.new result }
{
    let height = r.height;
    if height >= 128 {
        return None;
    }
    let c = table::slots::get(w, 1752 + (r.depth - 1));
    put_mark(w, height, 0, c.kind);
    Some(Registers {
        height: height + 1,
        ..r
    })
}

// UNMARK: the running context's own mark, with exactly n values above it.
pub fn remove(w: &mut [u8], r: Registers, n: usize) -> Option<Registers>
    requires { Busy w.old r }
    ensures { Tried (remove n) w.old r w.new result }
{
    let height = r.height;
    if n >= height {
        return None;
    }
    let there = state::stack::has(w, height, n);
    if there {
        let v = table::slots::get(w, height - n - 1);
        if v.kind != 5 {
            return None;
        }
        let d = r.depth;
        let c = table::slots::get(w, 1752 + (d - 1));
        if v.a != c.kind {
            return None;
        }
        table::slots::copy(w, height - n, height - n - 1, n);
        return Some(Registers {
            height: height - 1,
            ..r
        });
    }
    None
}

// COUNT: how many values stand above the running context's own mark. No mark stands at the height `clear` or above.
pub fn tally(w: &mut [u8], r: Registers, clear: usize) -> Option<Registers>
    requires { Busy w.old r × (length (beneath (stack_of (slots w.old) r.height)) ≤ clear) }
    ensures { Tried tally w.old r w.new result }
{
    let height = r.height;
    let i = base(w, height, clear);
    if i == 0 {
        return None;
    }
    let v = table::slots::get(w, i - 1);
    if v.kind != 5 {
        return None;
    }
    let d = r.depth;
    let c = table::slots::get(w, 1752 + (d - 1));
    if v.a != c.kind {
        return None;
    }
    let n = table::words::word(height - i);
    state::stack::push_slot(
        w,
        r,
        Slot {
            kind: 1,
            a: n,
            b: 1,
            c: 0,
            d: 0,
        },
    )
}
