// A row of literals, and the step that ends it: the end of the body, a literal that fails, or an operator that enters a body or passes over
// one, each in line. Any other literal is left to `engine`.
#![tactic(auto)]

ghost use Rattle.std.specs.Prelude.{◌≡◌, IfSome, true, false, [], ◌∷◌, ◌+◌, ◌-◌, ◌<◌, ◌≤◌, length};
ghost use Rattle.std.proofs.Math.Option.{none};
ghost use types.Run.{OneOf};
ghost use Rattle.table.specs.Slots.{slots};
ghost use Rattle.machine.specs.declared.Literal.{Literal};
ghost use Rattle.machine.specs.declared.Literal.TheVariants.{Plain, WithBody};
ghost use Rattle.machine.specs.Limits.{most_open};
ghost use Rattle.machine.specs.State.{running};
ghost use Rattle.machine.specs.Skeleton.{solid, body_at};
ghost use Rattle.machine.specs.Literal.{Code, bytes_of};
ghost use Rattle.machine.specs.Engine.{inline};
ghost use Rattle.machine.specs.Step.{execute, begun};
ghost use Rattle.machine.proofs.Legible.{Legible};
ghost use Rattle.names.specs.Names.{both};
ghost use Rattle.state.specs.Layout.{contexts_of, abs, Good, Busy, Tried};
ghost use Rattle.spans.specs.Memo.{BodyEnds};
ghost use Rattle.origins.specs.Bodies.{Short, Noting};
ghost use Rattle.sprints.specs.Swift.{origin, ending};
ghost use Rattle.rides.specs.declared.Ridden.TheVariants.{On};
ghost use Rattle.rides.specs.Rides.{ridden, Paced, Alighted, Led, PastHeld};

use machine::Value;
use state::Registers;

// ---- the running body

// Where the running body goes on, and where it ends.
#[derive(Clone, Copy)]
struct Seat {
    pub origin: u32,
    pub at: usize,
    pub end: usize,
}

fn seat_of(w: &[u8], depth: usize) -> Seat
    requires { (0 < depth) × (depth ≤ 12) × (48000 ≤ length w.now) }
    ensures { (result.origin ≡ origin w.now depth) × (result.at ≡ (running (contexts_of (slots w.now) depth)).at) × (result.end ≡ ending w.now depth) }
{
    let c = table::slots::get(w, 1752 + (depth - 1));
    Seat {
        origin: c.a,
        at: table::words::size(c.b),
        end: table::words::size(c.c),
    }
}

// Where steps have come to. Due: a body runs on, and nothing is skipped. On: nothing is said of the literal that is due.
#[derive(Clone, Copy)]
pub enum Ridden {
    Due(Registers),
    On(Registers),
}

// Nothing is said of the literal that is due.
fn on(x: Ridden) -> Ridden
    ensures { result ≡ On (ridden x) }
{
    match x {
        Ridden::Due(p) | Ridden::On(p) => Ridden::On(p),
    }
}

// The running body, whose bytes are b, goes on past the token that ends at p: the table learns it, and bodies that have ended are left.
fn alight(w: &mut [u8], r: Registers, b: &[u8], p: usize, end: usize) -> Ridden
    requires { Good w.old r × (0 < r.depth) × (r.skipping ≡ false) × (r.errors < r.steps) × (r.steps < 4294967295) × (length b.now ≤ 16777215) × (p ≤ length b.now) × (end ≡ ending w.old r.depth) }
    ensures { Alighted (solid b.now p) w.old r w.new result }
{
    let at = nesting::bodies::past_comments(b, p);
    contexts::bodies::go_to(w, r.depth, table::words::word(at));
    if at < end {
        return Ridden::Due(r);
    }
    Ridden::On(recovery::ends::settle(w, r))
}

// ---- DO

fn run_operator<'a>(w: &mut [u8], r: Registers, pre: &'a [u8], body: &'a [u8]) -> Option<Registers>
    requires { Busy w.old r × Short pre.now body.now }
    ensures { Tried (execute (both pre.now body.now) (Plain 231)) w.old r w.new result }
{
    let t = state::stack::tops(w, r.height);
    if t.count < 1 {
        return None;
    }
    let Value::Operator {
        origin,
        start,
        len,
        first,
    } = state::values::value_of(t.first)
    else {
        return None;
    };
    let q = Registers {
        height: r.height - 1,
        ..r
    };
    let Some(k) = effects::callee_of(r.used, pre, body, origin, start, len, first) else {
        return None;
    };
    contexts::bodies::call(w, q, origin, k.at, k.end, table::words::size(first))
}

// A step with DO, after which the body goes on at `next`.
fn pace_do<'a>(w: &mut [u8], r: Registers, pre: &'a [u8], body: &'a [u8], next: usize) -> Registers
    requires { Good w.old r × (0 < r.depth) × (r.steps < 4294967295) × Short pre.now body.now × (next < 4294967296) }
    ensures { Paced (both pre.now body.now) (Plain 231) next w.old r w.new result }
{
    let s = contexts::bodies::begin(w, r, table::words::word(next));
    match run_operator(w, s, pre, body) {
        Some(p) => recovery::ends::settle(w, p),
        None => recovery::ends::fault(w, state::counted(r)),
    }
}

// ---- a literal that fails

// A step with a literal that fails, after which its body would go on at `next`.
fn pace_fault(w: &mut [u8], r: Registers, next: usize) -> Registers
    requires { Good w.old r × (0 < r.depth) × (r.steps < 4294967295) × (next < 4294967296) }
    ensures { (code : Code) (x : Literal) → execute code x (begun next (abs w.old r)) ≡ none → Paced code x next w.old r w.new result }
{
    let s = contexts::bodies::begin(w, r, table::words::word(next));
    recovery::ends::fault(w, s)
}

// ---- operators that hold a body

// Where the body ends that is due at `next` of the bytes with that origin.
fn span_end(
    pre: &[u8],
    body: &[u8],
    early: &mut [u32],
    notes: &mut [u32],
    origin: u32,
    next: usize,
) -> usize
    requires { Short pre.now body.now × Noting pre.now body.now early.old notes.old × BodyEnds (bytes_of (both pre.now body.now) origin) next }
    ensures { (body_at most_open (bytes_of (both pre.now body.now) origin) next ≡ Ok result) × Noting pre.now body.now early.new notes.new }
{
    if origin == 0 {
        return spans::span_of(pre, next, early);
    }
    if origin == 1 {
        return spans::span_of(body, next, notes);
    }
    0
}

// CORRECT or IFCOPY, which pass over their bodies.
fn passes_over(number: u16) -> bool
    ensures { result ≡ true → OneOf (110 ∷ 240 ∷ []) number }
{
    if number == 110 {
        return true;
    }
    number == 240
}

// Where a row goes on, and the steps that are left.
#[derive(Clone, Copy)]
pub struct Further {
    pub at: usize,
    pub left: usize,
}

// A row that has come to `at`, with `left` steps left, past the operator there, which ends at `next`, and its body, if it passes over one.
fn past_held(
    pre: &[u8],
    body: &[u8],
    early: &mut [u32],
    notes: &mut [u32],
    origin: u32,
    number: u16,
    next: usize,
    at: usize,
    left: usize,
) -> Further
    requires { Short pre.now body.now × Noting pre.now body.now early.old notes.old × (OneOf (110 ∷ 240 ∷ []) number → (0 < left) × BodyEnds (bytes_of (both pre.now body.now) origin) next) }
    ensures { PastHeld (bytes_of (both pre.now body.now) origin) number next at left result × Noting pre.now body.now early.new notes.new }
{
    if passes_over(number) {
        return Further {
            at: span_end(pre, body, early, notes, origin, next),
            left: left - 1,
        };
    }
    Further { at, left }
}

// The body of an IF entered: of the running body, whose bytes are b, from `start` to `end`.
fn enter_if(w: &mut [u8], r: Registers, b: &[u8], start: usize, end: usize) -> Option<Registers>
    requires { Busy w.old r × (length b.now ≤ 16777215) × (start ≤ end) × (end ≤ length b.now) }
    ensures { IfSome result (Busy w.new) × ((code : Code) → b.now ≡ bytes_of code (origin w.old r.depth) → Tried (inline code start (end - start) false) w.old r w.new result) }
{
    let at = nesting::bodies::past_comments(b, start);
    contexts::bodies::inline(w, r, table::words::word(at), table::words::word(end), false)
}

// IF with its body, from `start` to `end`.
fn if_so(w: &mut [u8], r: Registers, b: &[u8], start: usize, end: usize) -> Option<Registers>
    requires { Busy w.old r × (length b.now ≤ 16777215) × (start ≤ end) × (end ≤ length b.now) }
    ensures { IfSome result (Busy w.new) × ((code : Code) → b.now ≡ bytes_of code (origin w.old r.depth) → Tried (execute code (WithBody 239 start (end - start))) w.old r w.new result) }
{
    let t = state::stack::tops(w, r.height);
    if t.count < 1 {
        return None;
    }
    let x = state::values::value_of(t.first);
    let Some(i) = operands::values::cardinal(x) else {
        return None;
    };
    let q = Registers {
        height: r.height - 1,
        ..r
    };
    if i == 0 {
        return Some(q);
    }
    enter_if(w, q, b, start, end)
}

// A step with IF, whose body's `{` stands at `brace` of b and which ends at `end`.
fn pace_if(w: &mut [u8], r: Registers, b: &[u8], brace: usize, end: usize) -> Registers
    requires { Good w.old r × (0 < r.depth) × (r.steps < 4294967295) × (length b.now ≤ 16777215) × (brace + 4 ≤ end) × (end ≤ length b.now) }
    ensures { (code : Code) → b.now ≡ bytes_of code (origin w.old r.depth) → Paced code (WithBody 239 (brace + 2) (end - 2 - (brace + 2))) (solid b.now end) w.old r w.new result }
{
    let past = nesting::bodies::past_comments(b, end);
    let s = contexts::bodies::begin(w, r, table::words::word(past));
    match if_so(w, s, b, brace + 2, end - 2) {
        Some(p) => recovery::ends::settle(w, p),
        None => recovery::ends::fault(w, state::counted(r)),
    }
}

// ---- several

// A row of literals, and the step that ends it, or up to a literal that wants a step of its own. `early` has notes on where bodies of the
// preamble end, and `notes` on those of the page (DECISIONS, D72); both are left with more.
pub fn ride<'a>(
    w: &mut [u8],
    r: Registers,
    pre: &'a [u8],
    body: &'a [u8],
    early: &mut [u32],
    notes: &mut [u32],
    most: usize,
) -> Ridden
    requires { Good w.old r × (0 < r.depth) × (r.skipping ≡ false) × (0 < most) × (r.steps + most ≤ 1000000) × Short pre.now body.now × Noting pre.now body.now early.old notes.old × Legible (both pre.now body.now) (abs w.old r) }
    ensures { Led (both pre.now body.now) most w.old r w.new result × Noting pre.now body.now early.new notes.new }
{
    let s = seat_of(w, r.depth);
    let b = origins::bytes_of(pre, body, s.origin);
    // two more than need be, so that a mark on what the row begins with is placed within it
    let t = sprints::row(w, state::counted(r), b, s.at, s.end, most, r.height + 2);
    let mut q = Registers {
        height: t.height,
        steps: r.steps + (most - t.left),
        ..r
    };
    if t.failed {
        let z = pace_fault(w, q, nesting::bodies::past_comments(b, t.next));
        return Ridden::On(z);
    }
    if t.number == 231 {
        let z = pace_do(w, q, pre, body, nesting::bodies::past_comments(b, t.next));
        return Ridden::On(z);
    }
    if t.number == 239 {
        let brace = nesting::bodies::past_comments(b, t.next);
        let end = span_end(pre, body, early, notes, s.origin, brace);
        return Ridden::On(pace_if(w, q, b, brace, end));
    }
    let u = past_held(
        pre, body, early, notes, s.origin, t.number, t.next, t.at, t.left,
    );
    if u.left == most {
        return Ridden::Due(q);
    }
    q.steps = r.steps + (most - u.left);
    let z = alight(w, q, b, u.at, s.end);
    if u.left == 0 {
        return on(z);
    }
    if u.left < t.left {
        return on(z);
    }
    z
}
