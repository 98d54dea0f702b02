// Mark recovery and the end of bodies. Recovery writes nothing: it only lowers the height of the stack and the number of contexts.
ghost use Rattle.std.specs.Prelude.{◌≡◌, false, true, ◌≤◌, ◌<◌, length};
ghost use Rattle.table.specs.Slots.{slots};
ghost use Rattle.machine.specs.Contexts.{from, recover, fault, settle, skipped};
ghost use Rattle.state.specs.Layout.{stack_of, contexts_of, Good, Busy, Done, Landed};

use state::{Landing, Registers};

// How many contexts there are from the one with the identity k on down; 0 if it is no longer in progress.
fn find(w: &[u8], k: u32, depth: usize) -> usize
    requires { (depth ≤ 12) × (48000 ≤ length w.now) }
    ensures { (result ≤ depth) × (contexts_of (slots w.now) result ≡ from k (contexts_of (slots w.now) depth)) }
{
    let mut i = depth;
    while i > 0 && table::slots::get(w, 1752 + (i - 1)).kind != k {
        i -= 1;
    }
    i
}

// Where recovery from this height of the stack and this many contexts ends.
fn landing(w: &[u8], high: usize, deep: usize) -> Landing
    requires { (high ≤ 128) × (deep ≤ 12) × (48000 ≤ length w.now) }
    ensures { Landed (slots w.now) (recover (stack_of (slots w.now) high) (contexts_of (slots w.now) deep)) high deep result.height result.depth }
{
    let mut height = high;
    let mut depth = deep;
    while height > 0 {
        let v = table::slots::get(w, height - 1);
        if v.kind != 5 {
            height -= 1;
            continue;
        }
        let d = find(w, v.a, depth);
        if d == 0 {
            height -= 1;
            continue;
        }
        let c = table::slots::get(w, 1752 + (d - 1));
        if c.b < c.c {
            return Landing { height, depth: d };
        }
        depth = d - 1;
        height -= 1;
    }
    Landing {
        height: 0,
        depth: 0,
    }
}

// After a literal that failed.
pub fn fault(w: &[u8], r: Registers) -> Registers
    requires { Good w.now r × (r.errors < r.steps) }
    ensures { Done fault w.now r w.now result }
{
    let p = landing(w, r.height, r.depth);
    Registers {
        height: p.height,
        depth: p.depth,
        errors: r.errors + 1,
        skipping: true,
        ..r
    }
}

// After a literal that did not fail: contexts that have ended are left, and the 0 that an IFELSE owes is pushed.
pub fn settle(w: &mut [u8], before: Registers) -> Registers
    requires { Good w.old before × (before.errors < before.steps) }
    ensures { Done settle w.old before w.new result }
{
    let mut r = before;
    while r.depth > 0 {
        let d = r.depth;
        let c = table::slots::get(w, 1752 + (d - 1));
        if c.b < c.c {
            r.skipping = false;
            return r;
        }
        r.depth = d - 1;
        if c.d < 4096 {
            continue;
        }
        let height = r.height;
        if height >= 128 {
            return fault(w, r);
        }
        table::slots::put(w, height, state::values::zero());
        r.height = height + 1;
    }
    r.skipping = false;
    r
}

// After a literal that was passed over.
pub fn skipped(w: &[u8], r: Registers) -> Registers
    requires { Busy w.now r × (r.skipping ≡ true) }
    ensures { Done skipped w.now r w.now result }
{
    let d = r.depth;
    let c = table::slots::get(w, 1752 + (d - 1));
    if c.b < c.c {
        return r;
    }
    let p = landing(w, r.height, d - 1);
    Registers {
        height: p.height,
        depth: p.depth,
        ..r
    }
}
