// A step begun, bodies entered, a body of the engine's opened.
ghost use Rattle.std.specs.Prelude.{◌≡◌, ◌+◌, ◌%◌, ◌<◌, ◌≤◌, length};
ghost use Rattle.table.specs.Slots.{slots};
ghost use Rattle.machine.specs.State.{running};
ghost use Rattle.state.specs.Layout.{contexts_of, lent_by, Good, Busy, Tried, goes_to, Begun};
ghost use Rattle.state.specs.Operations.{enter_on, inline, call, Opened};

use crate::frames;
use state::{Place, Registers};
use table::Slot;

// The context at `depth`, the running one, goes on at `next`.
pub fn go_to(w: &mut [u8], depth: usize, next: u32)
    requires { (0 < depth) × (depth ≤ 12) × (48000 ≤ length w.old) }
    ensures { slots w.new ≡ goes_to (slots w.old) depth next }
{
    let c = table::slots::get(w, 1752 + (depth - 1));
    table::slots::put(
        w,
        1752 + (depth - 1),
        Slot {
            kind: c.kind,
            a: c.a,
            b: next,
            c: c.c,
            d: c.d,
        },
    );
}

// A step begins: it is counted, and the running context goes on at `next`.
pub fn begin(w: &mut [u8], r: Registers, next: u32) -> Registers
    requires { Good w.old r × (0 < r.depth) × (r.steps < 4294967295) }
    ensures { Begun next w.old r w.new result }
{
    go_to(w, r.depth, next);
    Registers {
        steps: r.steps + 1,
        ..r
    }
}

// Where the running body goes on.
pub fn running(w: &[u8], depth: usize) -> Place
    requires { (0 < depth) × (depth ≤ 12) × (48000 ≤ length w.now) }
    ensures { (result.origin ≡ (running (contexts_of (slots w.now) depth)).origin) × (result.start ≡ (running (contexts_of (slots w.now) depth)).at) }
{
    let c = table::slots::get(w, 1752 + (depth - 1));
    Place {
        origin: c.a,
        start: c.b,
    }
}

// A body entered from `at` to `end`, with the last word of its context, which says where its frame lies.
fn enter_on(
    w: &mut [u8],
    r: Registers,
    origin: u32,
    at: u32,
    end: u32,
    word: u32,
) -> Option<Registers>
    requires { Busy w.old r × (r.depth < 12 → lent_by r.depth (word % 4096) ≤ r.used) }
    ensures { Tried (enter_on (slots w.old) origin at end word) w.old r w.new result }
{
    let d = r.depth;
    if d >= 12 {
        return None;
    }
    table::slots::put(
        w,
        1752 + d,
        Slot {
            kind: table::words::word(r.steps),
            a: origin,
            b: at,
            c: end,
            d: word,
        },
    );
    Some(Registers { depth: d + 1, ..r })
}

// A body entered on the running frame.
pub fn inline(w: &mut [u8], r: Registers, at: u32, end: u32, owes: bool) -> Option<Registers>
    requires { Busy w.old r }
    ensures { Tried (inline at end owes) w.old r w.new result }
{
    let c = table::slots::get(w, 1752 + (r.depth - 1));
    enter_on(w, r, c.a, at, end, frames::last_word(c.d % 4096, owes))
}

// A body entered on the frame that stands in the cells from `first` on.
pub fn call(
    w: &mut [u8],
    r: Registers,
    origin: u32,
    at: u32,
    end: u32,
    first: usize,
) -> Option<Registers>
    requires { Busy w.old r × (first + 50 ≤ r.used) }
    ensures { Tried (call origin at end first) w.old r w.new result }
{
    let word = frames::last_word(table::words::word(600 + first), false);
    enter_on(w, r, origin, at, end, word)
}

// A body of the engine's, from `at` to `end`, with the frame that lies in its place and so many cells.
pub fn open(w: &mut [u8], origin: u32, at: u32, end: u32, used: usize) -> Registers
    requires { (48000 ≤ length w.old) × (used ≤ 1024) }
    ensures { Opened origin at end used w.old w.new result }
{
    table::slots::put(
        w,
        1752,
        Slot {
            kind: 0,
            a: origin,
            b: at,
            c: end,
            d: 0,
        },
    );
    if at < end {
        return Registers {
            height: 0,
            depth: 1,
            used,
            steps: 0,
            errors: 0,
            skipping: false,
        };
    }
    Registers {
        height: 0,
        depth: 0,
        used,
        steps: 0,
        errors: 0,
        skipping: false,
    }
}
