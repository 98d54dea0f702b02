// Cells: vectors made and read, the frame that an operator keeps.
ghost use Rattle.std.specs.Prelude.{◌≡◌, ◌+◌, ◌<◌, ◌≤◌, length, take, drop};
ghost use Rattle.table.specs.Slots.{slots};
ghost use Rattle.machine.specs.Engine.{build, compose, is_cardinal, all_cardinals};
ghost use Rattle.state.specs.Layout.{value_in, values_at, Busy, Tried};
ghost use Rattle.state.specs.Operations.{element, VectorPut};

use state::Registers;
use table::Slot;

// GET: the cell k is pushed.
pub fn element(w: &mut [u8], r: Registers, k: usize) -> Option<Registers>
    requires { Busy w.old r }
    ensures { Tried (element k) w.old r w.new result }
{
    if k >= r.used {
        return state::stack::push_slot(w, r, state::values::zero());
    }
    let v = table::slots::get(w, 728 + k);
    let u = state::values::plain(v);
    state::stack::push_slot(w, r, u)
}

// The n cells after those in use are charged, and the entry a, which becomes the topmost, is the vector of them.
pub fn put_vector(w: &mut [u8], r: Registers, a: usize, lower: u32, n: usize) -> Registers
    requires { (a < 128) × (r.used + n ≤ 1024) × (48000 ≤ length w.old) }
    ensures { VectorPut a lower n w.old r w.new result }
{
    let first = table::words::word(r.used);
    let count = table::words::word(n);
    table::slots::put(
        w,
        a,
        Slot {
            kind: 3,
            a: first,
            b: lower,
            c: count,
            d: 0,
        },
    );
    Registers {
        height: a + 1,
        used: r.used + n,
        ..r
    }
}

// MAKEVEC and MAKEVECLU: the topmost n values become cells, and a vector of them takes their place.
pub fn build(w: &mut [u8], r: Registers, lower: u32, n: usize) -> Option<Registers>
    requires { Busy w.old r × (lower < 2147483648) }
    ensures { Tried (build lower n) w.old r w.new result }
{
    let height = r.height;
    let used = r.used;
    if n > height {
        return None;
    }
    let there = state::stack::has(w, height, n);
    if there {
        if height >= 128 + n {
            return None;
        }
        if used + n > 1024 {
            return None;
        }
        let a = height - n;
        table::slots::copy(w, a, 728 + used, n);
        return Some(put_vector(w, r, a, lower, n));
    }
    None
}

// MAKESIMPLECO: the running frame becomes 50 cells, and an operator that keeps them is pushed.
pub fn compose(w: &mut [u8], r: Registers, start: u32, len: u32) -> Option<Registers>
    requires { Busy w.old r }
    ensures { Tried (compose start len) w.old r w.new result }
{
    let height = r.height;
    let used = r.used;
    let d = r.depth;
    if height >= 128 {
        return None;
    }
    if used + 50 > 1024 {
        return None;
    }
    let c = table::slots::get(w, 1752 + (d - 1));
    table::slots::copy_long(w, 128 + table::words::size(c.d % 4096), 728 + used, 50);
    let first = table::words::word(used);
    table::slots::put(
        w,
        height,
        Slot {
            kind: 4,
            a: c.a,
            b: start,
            c: len,
            d: first,
        },
    );
    Some(Registers {
        height: height + 1,
        used: used + 50,
        ..r
    })
}

// The slot holds a Cardinal: an integer from 0 to 16777215.
fn is_cardinal(v: Slot) -> bool
    ensures { result ≡ is_cardinal (value_in v) }
{
    if v.kind == 2 {
        return false;
    }
    if v.kind == 3 {
        return false;
    }
    if v.kind == 4 {
        return false;
    }
    if v.b != 1 {
        return false;
    }
    v.a <= 16777215
}

// ERROR: of the cells in use, the `count` from `first` on are all Cardinals.
pub fn all_cardinals(w: &[u8], used: usize, first: usize, count: usize) -> bool
    requires { (used ≤ 1024) × (48000 ≤ length w.now) }
    ensures { result ≡ all_cardinals (take count (drop first (values_at (slots w.now) 728 used))) }
{
    let end = used.min(first.saturating_add(count));
    for k in first..end {
        if !is_cardinal(table::slots::get(w, 728 + k)) {
            return false;
        }
    }
    true
}
