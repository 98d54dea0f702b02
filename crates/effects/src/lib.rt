// What an operator asks for, done on the state in the lent table.
#![tactic(auto)]

ghost use Rattle.std.specs.Prelude.{◌≡◌, ℕ, ◌+◌, ◌<◌, true, List};
ghost use Rattle.tokens.specs.Text.{lowered};
ghost use Rattle.machine.specs.declared.Work.TheVariants.{Match, Report};
ghost use Rattle.machine.specs.State.{running};
ghost use Rattle.machine.specs.Literal.{Code, text_of};
ghost use Rattle.machine.specs.Engine.{spell, inline, call, worked, does, affected};
ghost use Rattle.operands.specs.Sizes.{SizedWork, SizedNext, Sized};
ghost use Rattle.state.specs.Layout.{Busy, Tried};
ghost use Rattle.names.specs.Names.{both, data_at};
ghost use Rattle.origins.specs.Bodies.{Short};
ghost use Rattle.effects.specs.Calls.{Enters};

use machine::{Effect, Next, Work};
use state::{Place, Registers};

// The string token at `start` of the running body becomes a vector.
pub fn spell<'a>(
    w: &mut [u8],
    r: Registers,
    pre: &'a [u8],
    body: &'a [u8],
    start: usize,
) -> Option<Registers>
    requires { Busy w.old r }
    ensures { Tried (spell (both pre.now body.now) start) w.old r w.new result }
{
    let c = contexts::bodies::running(w, r.depth);
    let b = origins::bytes_of(pre, body, c.origin);
    store::letters::spell(w, r, b, start)
}

// A body of the running one entered with a copy of its frame.
pub fn inline<'a>(
    w: &mut [u8],
    r: Registers,
    pre: &'a [u8],
    body: &'a [u8],
    start: u32,
    len: u32,
    owes: bool,
) -> Option<Registers>
    requires { Busy w.old r × Short pre.now body.now × (start + len < 4294967296) }
    ensures { Tried (inline (both pre.now body.now) start len owes) w.old r w.new result }
{
    let c = contexts::bodies::running(w, r.depth);
    let b = origins::bytes_of(pre, body, c.origin);
    let at = nesting::bodies::past_comments(b, table::words::size(start));
    contexts::bodies::inline(w, r, table::words::word(at), start + len, owes)
}

// The body of an operator as it is entered, from `at` to `end`.
#[derive(Clone, Copy)]
pub struct Callee {
    pub at: u32,
    pub end: u32,
}

// `None` where the body does not stand in the bytes of its origin, or the frame that it keeps not in the cells.
pub fn callee_of<'a>(
    used: usize,
    pre: &'a [u8],
    body: &'a [u8],
    origin: u32,
    start: u32,
    len: u32,
    first: u32,
) -> Option<Callee>
    requires { Short pre.now body.now }
    ensures { Enters (both pre.now body.now) used origin start len first result }
{
    if table::words::size(first) + 50 > used {
        return None;
    }
    let end = table::words::size(start) + table::words::size(len);
    let b = origins::bytes_of(pre, body, origin);
    if end > b.len() {
        return None;
    }
    let at = nesting::bodies::past_comments(b, table::words::size(start));
    Some(Callee {
        at: table::words::word(at),
        end: table::words::word(end),
    })
}

// The body of an operator entered with the frame that it keeps.
fn call<'a>(
    w: &mut [u8],
    r: Registers,
    pre: &'a [u8],
    body: &'a [u8],
    origin: u32,
    start: u32,
    len: u32,
    first: u32,
) -> Option<Registers>
    requires { Busy w.old r × Short pre.now body.now }
    ensures { Tried (call (both pre.now body.now) origin start len first) w.old r w.new result }
{
    let Some(k) = callee_of(r.used, pre, body, origin, start, len, first) else {
        return None;
    };
    contexts::bodies::call(w, r, origin, k.at, k.end, table::words::size(first))
}

// Where a value's text stands: of an identifier its token, of other values nowhere.
fn place_of(v: machine::Value) -> Place
    ensures { (pre body : List ℕ) → lowered (data_at (both pre body) result.origin result.start) ≡ text_of (both pre body) v }
{
    match v {
        machine::Value::Identifier { origin, start, .. } => Place { origin, start },
        _ => Place {
            origin: 2,
            start: 0,
        },
    }
}

// EQ of two identifiers: 1 or 0 is pushed.
fn matches<'a>(
    w: &mut [u8],
    r: Registers,
    pre: &'a [u8],
    body: &'a [u8],
    v: machine::Value,
    u: machine::Value,
) -> Option<Registers>
    requires { Busy w.old r }
    ensures { Tried (worked (both pre.now body.now) (Match v u)) w.old r w.new result }
{
    let x = place_of(v);
    let y = place_of(u);
    let same = names::same_text(pre, body, x.origin, x.start, y.origin, y.start);
    let bit = operands::values::natural(u32::from(same));
    state::stack::push_number(w, r, bit)
}

// ERROR with a message, whose elements are Cardinals.
fn report(w: &[u8], r: Registers, v: machine::Value) -> Option<Registers>
    requires { Busy w.now r }
    ensures { (code : Code) → Tried (worked code (Report v)) w.now r w.now result }
{
    let machine::Value::Vector { first, count, .. } = v else {
        return Some(r);
    };
    let all = store::cells::all_cardinals(
        w,
        r.used,
        table::words::size(first),
        table::words::size(count),
    );
    if all {
        return Some(r);
    }
    None
}

// What the engine does with the values above the topmost mark.
fn work<'a>(w: &mut [u8], r: Registers, pre: &'a [u8], body: &'a [u8], x: Work) -> Option<Registers>
    requires { Busy w.old r × SizedWork x }
    ensures { Tried (worked (both pre.now body.now) x) w.old r w.new result }
{
    match x {
        Work::Nothing => Some(r),
        Work::Fetch { j } => contexts::frames::fetch(w, r, table::words::size(j)),
        Work::Element { cell } => store::cells::element(w, r, table::words::size(cell)),
        Work::Build { lower, count } => store::cells::build(w, r, lower, table::words::size(count)),
        Work::Spell { start } => spell(w, r, pre, body, table::words::size(start)),
        Work::Utter { start, len } => state::stack::push_name(w, r, start, len),
        Work::Compose { start, len } => store::cells::compose(w, r, start, len),
        Work::Repeat { count } => state::stack::repeat(w, r, table::words::size(count)),
        Work::Turn { depth, first } => state::stack::turn(
            w,
            r,
            table::words::size(depth),
            table::words::size(first),
        ),
        Work::Match(v, u) => matches(w, r, pre, body, v, u),
        Work::Report(v) => report(w, r, v),
    }
}

// The engine's part of an operator.
fn act<'a>(w: &mut [u8], r: Registers, pre: &'a [u8], body: &'a [u8], x: Next) -> Option<Registers>
    requires { Busy w.old r × Short pre.now body.now × SizedNext x }
    ensures { Tried (does (both pre.now body.now) x) w.old r w.new result }
{
    match x {
        Next::Works(k) => work(w, r, pre, body, k),
        Next::Inline { start, len, owes } => inline(w, r, pre, body, start, len, owes),
        Next::Call {
            origin,
            start,
            len,
            first,
        } => call(w, r, pre, body, origin, start, len, first),
        Next::Store { j } => contexts::frames::store(w, r, table::words::size(j)),
        Next::Place { count } => marks::place(w, r, table::words::size(count)),
        Next::Remove { count } => marks::remove(w, r, table::words::size(count)),
        Next::Tally => marks::tally(w, r, r.height),
    }
}

// An effect, on the state from which the operator's values have been popped.
pub fn affect<'a>(
    w: &mut [u8],
    r: Registers,
    pre: &'a [u8],
    body: &'a [u8],
    e: Option<Effect>,
) -> Option<Registers>
    requires { Busy w.old r × Short pre.now body.now × Sized e }
    ensures { Tried (affected (both pre.now body.now) e) w.old r w.new result }
{
    match e {
        None => None,
        Some(Effect::Gives(a)) => state::stack::push_number(w, r, a),
        Some(Effect::Gives2(a, b)) => state::stack::push_two(w, r, a, b),
        Some(Effect::Acts(x)) => act(w, r, pre, body, x),
    }
}
