// The running frame; the frame of a body of the engine's. Until a body stores to its frame, that lies where it was found (DECISIONS, D78).
ghost use Rattle.std.specs.Prelude.{◌≡◌, ◌+◌, ◌%◌, ◌<◌, ◌≤◌, leb, length};
ghost use Rattle.table.specs.Slots.{slots, copied};
ghost use Rattle.machine.specs.Engine.{store};
ghost use Rattle.state.specs.Layout.{Busy, Tried};
ghost use Rattle.state.specs.Operations.{fetch, filled, Owned};

use state::Registers;
use table::Slot;

// FGET: the element j of the running frame is pushed.
pub fn fetch(w: &mut [u8], r: Registers, j: usize) -> Option<Registers>
    requires { Busy w.old r }
    ensures { Tried (fetch j) w.old r w.new result }
{
    if j >= 50 {
        return state::stack::push_slot(w, r, state::values::zero());
    }
    let c = table::slots::get(w, 1752 + (r.depth - 1));
    let v = table::slots::get(w, 128 + table::words::size(c.d % 4096) + j);
    let u = state::values::plain(v);
    state::stack::push_slot(w, r, u)
}

// The last word of a context: its frame lies so many slots from 128 on, and whether it owes.
pub fn last_word(frame: u32, owes: bool) -> u32
    requires { frame < 4096 }
    ensures { (result % 4096 ≡ frame) × (leb 4096 result ≡ owes) }
{
    if owes {
        return 4096 + frame;
    }
    frame
}

// The running context gets a frame of its own, as the running one is.
fn own(w: &mut [u8], r: Registers)
    requires { Busy w.old r }
    ensures { Owned w.old r w.new }
{
    let d = r.depth;
    let c = table::slots::get(w, 1752 + (d - 1));
    let from = table::words::size(c.d % 4096);
    let to = 50 * (d - 1);
    if from == to {
        return;
    }
    table::slots::copy_long(w, 128 + from, 128 + to, 50);
    let word = last_word(table::words::word(to), c.d >= 4096);
    table::slots::put(
        w,
        1752 + (d - 1),
        Slot {
            kind: c.kind,
            a: c.a,
            b: c.b,
            c: c.c,
            d: word,
        },
    );
}

// FSET: the topmost value goes into the element j of the running frame.
pub fn store(w: &mut [u8], r: Registers, j: usize) -> Option<Registers>
    requires { Busy w.old r }
    ensures { Tried (store j) w.old r w.new result }
{
    let height = r.height;
    if height == 0 {
        return None;
    }
    let v = table::slots::get(w, height - 1);
    if v.kind == 5 {
        return None;
    }
    let popped = Registers {
        height: height - 1,
        ..r
    };
    if j >= 50 {
        return Some(popped);
    }
    own(w, r);
    table::slots::put(w, 128 + 50 * (r.depth - 1) + j, v);
    Some(popped)
}

// The n slots from b on are 0.
fn fill(w: &mut [u8], b: usize, n: usize)
    requires { (b + n ≤ 2400) × (48000 ≤ length w.old) }
    ensures { slots w.new ≡ filled (slots w.old) b n }
{
    let zero = state::values::zero();
    for i in 0..n {
        table::slots::put(w, b + i, zero);
    }
}

// The frame with which the preamble starts.
pub fn zero_frame(w: &mut [u8])
    requires { 48000 ≤ length w.old }
    ensures { slots w.new ≡ filled (slots w.old) 128 50 }
{
    fill(w, 128, 50);
}

// The frame of the engine's body is kept aside.
pub fn keep_frame(w: &mut [u8])
    requires { 48000 ≤ length w.old }
    ensures { slots w.new ≡ copied (slots w.old) 128 1764 50 }
{
    table::slots::copy_long(w, 128, 1764, 50);
}

// The frame kept aside is the engine's body's.
pub fn take_frame(w: &mut [u8])
    requires { 48000 ≤ length w.old }
    ensures { slots w.new ≡ copied (slots w.old) 1764 128 50 }
{
    table::slots::copy_long(w, 1764, 128, 50);
}
