// A step with a literal that is not passed over: read, executed, and what follows. The bodies have been judged, and nothing in them is judged
// again (DECISIONS, D77).
#![tactic(auto)]

ghost use Rattle.std.specs.Prelude.{◌<◌};
ghost use Rattle.machine.specs.declared.Literal.TheVariants.{Plain};
ghost use Rattle.machine.specs.Literal.{bytes_of};
ghost use Rattle.machine.specs.Step.{execute};
ghost use Rattle.machine.proofs.Legible.{Legible};
ghost use Rattle.names.specs.Names.{both};
ghost use Rattle.state.specs.Layout.{abs, Good, Busy, Tried};
ghost use Rattle.literals.specs.Dues.{LiteralThere};
ghost use Rattle.origins.specs.Bodies.{Short, Noting};
ghost use Rattle.sprints.specs.Swift.{Executes, Ready, Attempted};
ghost use Rattle.paces.specs.Paces.{SizedLiteral, Stepped};

use machine::{Literal, Op};
use state::{Registers, afresh};

fn execute<'a>(
    w: &mut [u8],
    r: Registers,
    pre: &'a [u8],
    body: &'a [u8],
    x: Literal,
) -> Option<Registers>
    requires { Busy w.old r × Short pre.now body.now × SizedLiteral x }
    ensures { Tried (execute (both pre.now body.now) x) w.old r w.new result }
{
    match x {
        Literal::Figure(a) => state::stack::push_number(w, r, a),
        Literal::Name { start, len } => state::stack::push_name(w, r, start, len),
        Literal::Text { start } => effects::spell(w, r, pre, body, table::words::size(start)),
        Literal::Plain { number } => families::on(w, r, pre, body, numbering::op_of(number)),
        Literal::WithBody { number, start, len } => families::holder(
            w, r, pre, body, number, start, len,
        ),
    }
}

// An operator without a body, by its family (DECISIONS, D73), and UNMARK0.
fn operator<'a>(
    w: &mut [u8],
    r: Registers,
    pre: &'a [u8],
    body: &'a [u8],
    n: u16,
) -> Option<Registers>
    requires { Busy w.old r × Short pre.now body.now }
    ensures { Tried (execute (both pre.now body.now) (Plain n)) w.old r w.new result }
{
    match n {
        192 => marks::remove(w, r, 0),
        _ => match numbering::op_of(n) {
            Op::OnVectors(k) => families::on(w, afresh(r), pre, body, k),
            Op::Tests(k) => families::on(w, afresh(r), pre, body, k),
            Op::OnStack(k) => families::on(w, afresh(r), pre, body, k),
            Op::Reckons(k) => families::on(w, afresh(r), pre, body, k),
            o => families::on(w, afresh(r), pre, body, o),
        },
    }
}

// ---- a step. From here on `early` has notes on where bodies of the preamble end, and `notes` on those of the page (DECISIONS, D72); both are
// left with more.

// The literal at `at` of the running body, which has the origin o, read whole.
fn literal<'a>(
    w: &mut [u8],
    r: Registers,
    pre: &'a [u8],
    body: &'a [u8],
    early: &mut [u32],
    notes: &mut [u32],
    o: u32,
    at: usize,
) -> Option<Registers>
    requires { Ready (both pre.now body.now) (bytes_of (both pre.now body.now) o) at w.old r × Short pre.now body.now × Noting pre.now body.now early.old notes.old × LiteralThere (bytes_of (both pre.now body.now) o) at }
    ensures { Attempted (both pre.now body.now) w.old r w.new result × Noting pre.now body.now early.new notes.new }
{
    let d = origins::due_of(pre, body, early, notes, o, at);
    let q = contexts::bodies::begin(w, r, table::words::word(d.next));
    let x = d.literal;
    execute(w, q, pre, body, x)
}

// A step with a literal that is read whole and not passed over.
fn pace_noting<'a>(
    w: &mut [u8],
    r: Registers,
    pre: &'a [u8],
    body: &'a [u8],
    early: &mut [u32],
    notes: &mut [u32],
) -> Registers
    requires { Good w.old r × (0 < r.depth) × Executes (both pre.now body.now) (abs w.old r) × (r.steps < 4294967295) × Short pre.now body.now × Noting pre.now body.now early.old notes.old × Legible (both pre.now body.now) (abs w.old r) }
    ensures { Stepped pre.now body.now w.old r w.new result × Noting pre.now body.now early.new notes.new }
{
    let c = contexts::bodies::running(w, r.depth);
    match literal(
        w,
        r,
        pre,
        body,
        early,
        notes,
        c.origin,
        table::words::size(c.start),
    ) {
        Some(p) => recovery::ends::settle(w, p),
        None => recovery::ends::fault(w, state::counted(r)),
    }
}

// A step with a literal that is not passed over: most often an operator, told by its first bytes. Only the other literals ask for notes, and
// they are left to `pace_noting`, so that what most steps do stays small.
pub fn pace<'a>(
    w: &mut [u8],
    r: Registers,
    pre: &'a [u8],
    body: &'a [u8],
    early: &mut [u32],
    notes: &mut [u32],
) -> Registers
    requires { Good w.old r × (0 < r.depth) × Executes (both pre.now body.now) (abs w.old r) × (r.steps < 4294967295) × Short pre.now body.now × Noting pre.now body.now early.old notes.old × Legible (both pre.now body.now) (abs w.old r) }
    ensures { Stepped pre.now body.now w.old r w.new result × Noting pre.now body.now early.new notes.new }
{
    let c = contexts::bodies::running(w, r.depth);
    let b = origins::bytes_of(pre, body, c.origin);
    let Some(x) = literals::reading::bare_operator(b, table::words::size(c.start)) else {
        return afresh(pace_noting(w, afresh(r), pre, body, early, notes));
    };
    let s = contexts::bodies::begin(w, r, table::words::word(x.next));
    match operator(w, s, pre, body, x.number) {
        Some(p) => afresh(recovery::ends::settle(w, p)),
        None => {
            let q = state::counted(r);
            afresh(recovery::ends::fault(w, q))
        }
    }
}
