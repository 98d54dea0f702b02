// Several steps, skipping, and a body under an allowance. The bodies have been judged, and nothing in them is judged again (DECISIONS, D77).
// `early` has notes on where bodies of the preamble end, and `notes` on those of the page (DECISIONS, D72); both are left with more.
ghost use Rattle.std.specs.Prelude.{◌≡◌, true, ◌+◌, ◌<◌, ◌≤◌};
ghost use Rattle.machine.specs.declared.Literal.TheVariants.{Plain};
ghost use Rattle.machine.specs.Literal.{Code};
ghost use Rattle.machine.proofs.Legible.{Legible};
ghost use Rattle.names.specs.Names.{both};
ghost use Rattle.state.specs.Layout.{abs, Good};
ghost use Rattle.origins.specs.Bodies.{Short, Noting};
ghost use Rattle.engine.specs.Steps.{Ran, Onward};
ghost use Rattle.rides.specs.declared.Ridden.TheVariants.{On};
ghost use Rattle.rides.specs.Rides.{Paced, Led};

use rides::Ridden;
use spans::WORDS;
use state::{Registers, afresh};

// A step with UNMARK0, after which its body goes on at `next`.
fn unmark(w: &mut [u8], r: Registers, next: usize) -> Registers
    requires { Good w.old r × (0 < r.depth) × (r.steps < 4294967295) × (next < 4294967296) }
    ensures { (code : Code) → Paced code (Plain 192) next w.old r w.new result }
{
    let s = contexts::bodies::begin(w, r, table::words::word(next));
    match marks::remove(w, s, 0) {
        Some(p) => recovery::ends::settle(w, p),
        None => recovery::ends::fault(w, state::counted(r)),
    }
}

// Literals of the running body passed over, and UNMARK0 if it comes.
fn pass<'a>(w: &mut [u8], start: Registers, pre: &'a [u8], body: &'a [u8], most: usize) -> Registers
    requires { Good w.old start × (0 < start.depth) × (start.skipping ≡ true) × (0 < most) × (start.steps + most ≤ 1000000) × Short pre.now body.now × Legible (both pre.now body.now) (abs w.old start) }
    ensures { Led (both pre.now body.now) most w.old start w.new (On result) }
{
    let depth = start.depth;
    let mut r = start;
    let mut left = most;
    while left > 0 {
        let c = contexts::bodies::running(w, depth);
        let b = origins::bytes_of(pre, body, c.origin);
        let d = literals::reading::ahead(b, table::words::size(c.start));
        if d.unmarks {
            return afresh(unmark(w, r, d.next));
        }
        let q = contexts::bodies::begin(w, r, table::words::word(d.next));
        r = afresh(recovery::ends::skipped(w, q));
        left -= 1;
        if r.depth == depth {
            continue;
        }
        return r;
    }
    r
}

// Steps up to a literal that wants a step of its own.
fn lead<'a>(
    w: &mut [u8],
    r: Registers,
    pre: &'a [u8],
    body: &'a [u8],
    early: &mut [u32],
    notes: &mut [u32],
    most: usize,
) -> Ridden
    requires { Good w.old r × (0 < r.depth) × (0 < most) × (r.steps + most ≤ 1000000) × Short pre.now body.now × Noting pre.now body.now early.old notes.old × Legible (both pre.now body.now) (abs w.old r) }
    ensures { Led (both pre.now body.now) most w.old r w.new result × Noting pre.now body.now early.new notes.new }
{
    if r.skipping {
        return Ridden::On(pass(w, r, pre, body, most));
    }
    rides::ride(w, r, pre, body, early, notes, most)
}

// At least one step, at most so many.
fn onward<'a>(
    w: &mut [u8],
    r: Registers,
    pre: &'a [u8],
    body: &'a [u8],
    early: &mut [u32],
    notes: &mut [u32],
    most: usize,
) -> Registers
    requires { Good w.old r × (0 < r.depth) × (0 < most) × (r.steps + most ≤ 1000000) × Short pre.now body.now × Noting pre.now body.now early.old notes.old × Legible (both pre.now body.now) (abs w.old r) }
    ensures { Onward (both pre.now body.now) most w.old r w.new result × Noting pre.now body.now early.new notes.new }
{
    match lead(w, r, pre, body, early, notes, most) {
        Ridden::Due(q) => paces::pace(w, q, pre, body, early, notes),
        Ridden::On(q) => q,
    }
}

// At most `allowance` steps, by the notes and leaving more.
fn run_noting<'a>(
    w: &mut [u8],
    start: Registers,
    pre: &'a [u8],
    body: &'a [u8],
    early: &mut [u32],
    notes: &mut [u32],
    allowance: usize,
) -> Registers
    requires { Good w.old start × (start.steps + allowance ≤ 1000000) × Short pre.now body.now × Noting pre.now body.now early.old notes.old × Legible (both pre.now body.now) (abs w.old start) }
    ensures { Ran pre.now body.now allowance w.old start w.new result }
{
    let mut r = start;
    let last = start.steps + allowance;
    while r.steps < last {
        if r.depth == 0 {
            return r;
        }
        let q = onward(w, r, pre, body, early, notes, last - r.steps);
        r = afresh(q);
    }
    r
}

// At most `allowance` steps.
pub fn run<'a>(
    w: &mut [u8],
    start: Registers,
    pre: &'a [u8],
    body: &'a [u8],
    allowance: usize,
) -> Registers
    requires { Good w.old start × (start.steps + allowance ≤ 1000000) × Short pre.now body.now × Legible (both pre.now body.now) (abs w.old start) }
    ensures { Ran pre.now body.now allowance w.old start w.new result }
{
    // all zero, they note nothing yet
    let mut early = [0u32; WORDS];
    let mut notes = [0u32; WORDS];
    run_noting(w, start, pre, body, &mut early, &mut notes, allowance)
}
