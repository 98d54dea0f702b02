// The literals that masters are mostly made of: numbers of two bytes, and the operators met most of those that leave cells and contexts as
// they are; and longer numbers and names. Several in a row are executed here, the height of the stack in hand. What is not done
// here is left undone, for `rides` and `engine`; of a literal that fails it is told that it does.
#![tactic(auto)]

ghost use Rattle.std.specs.Prelude.{◌≡◌, true, false, ℕ, ◌<◌, ◌≤◌, length, get_or, [], ◌∷◌};
ghost use types.Run.{OneOf};
ghost use Rattle.machine.specs.declared.Literal.TheVariants.{Plain};
ghost use Rattle.machine.specs.declared.Role.TheVariants as role;
ghost use Rattle.machine.specs.declared.Op.TheVariants.{OnVectors, OnFrame, Tests};
ghost use Rattle.machine.specs.declared.Value.TheVariants as value;
ghost use Rattle.machine.specs.Skeleton.{role_of, solid};
ghost use Rattle.machine.specs.Operators.{op_of, arity_of, effect_of};
ghost use Rattle.machine.specs.Operand.{answered};
ghost use Rattle.machine.specs.Literal.{Code, bytes_of, found_at};
ghost use Rattle.machine.specs.Step.{execute};
ghost use Rattle.tokens.specs.declared.Read.TheVariants as read;
ghost use Rattle.tokens.specs.Token.{token_at};
ghost use Rattle.state.specs.Layout.{Busy};
ghost use Rattle.literals.specs.Dues.{LiteralThere};
ghost use Rattle.sprints.specs.Swift.{TokenThere, LiteralsLeft, undone_height, height_in, marked, origin, ending, quiet, Flat, Strides, Rowed};

use machine::{Effect, FrameOp, Next, TestOp, Value, VectorOp, Work};
use numbers::{NoNumber, Number};
use state::Registers;
use tokens::Form;
use tokens::kinds::{IDENTIFIER, STRING};

// What a literal leaves: the height of the stack, and where the next token stands. `number` is the operator at its place, 0 for none.
#[derive(Clone, Copy)]
pub struct Stride {
    pub height: usize,
    pub next: usize,
    pub number: u16,
}

// Where a row of literals has come to: the height of the stack, the steps that are left, the place. `failed`: the literal there fails, and
// ends at `next`. `number` is the operator there that was left undone, and `next` where it ends; 0 says nothing of what stands there.
#[derive(Clone, Copy)]
pub struct Reach {
    pub height: usize,
    pub left: usize,
    pub at: usize,
    pub failed: bool,
    pub number: u16,
    pub next: usize,
}

const NO_OPERATOR: u16 = 0;

// Heights that the stack cannot have. Nothing was done, and nothing is said of the literal:
const UNDONE: usize = 129;

// nothing was done, since the literal fails.
const FAILED: usize = 130;

// The height after an operation.
fn height_of(p: Option<Registers>) -> usize
    ensures { result ≡ height_in p }
{
    match p {
        Some(q) => q.height,
        None => FAILED,
    }
}

// ---- the operators met most

// FGET and FSET
fn framed(w: &mut [u8], r: Registers, o: FrameOp) -> usize
    requires { Busy w.old r }
    ensures { (code : Code) (n : ℕ) → OnFrame o ≡ op_of n → Flat (marked w.old r.height) (execute code (Plain n)) w.old r w.new result }
{
    let t = state::stack::tops(w, r.height);
    if t.count < 1 {
        return UNDONE;
    }
    let x = state::values::value_of(t.first);
    let e = operators::frame::effect(o, x);
    let q = Registers {
        height: r.height - 1,
        ..r
    };
    match e {
        Some(Effect::Acts(Next::Works(Work::Fetch { j }))) => height_of(contexts::frames::fetch(
            w,
            q,
            table::words::size(j),
        )),
        Some(Effect::Acts(Next::Store { j })) => height_of(contexts::frames::store(
            w,
            q,
            table::words::size(j),
        )),
        _ => UNDONE,
    }
}

// MARK under no value. Left undone where the mark would stand at the height `clear` or above.
fn mark(w: &mut [u8], r: Registers, clear: usize) -> usize
    requires { Busy w.old r }
    ensures { (code : Code) → Flat clear (execute code (Plain 186)) w.old r w.new result }
{
    if r.height > clear {
        return UNDONE;
    }
    let t = state::stack::tops(w, r.height);
    if t.count < 1 {
        return UNDONE;
    }
    let Some(n) = operands::values::cardinal(state::values::value_of(t.first)) else {
        return UNDONE;
    };
    if n != 0 {
        return UNDONE;
    }
    let q = Registers {
        height: r.height - 1,
        ..r
    };
    height_of(marks::place_bare(w, q))
}

// FGET or FSET
fn frame_op(n: u16) -> FrameOp
    requires { OneOf (20 ∷ 21 ∷ []) n }
    ensures { OnFrame result ≡ op_of n }
{
    match n {
        20 => FrameOp::Fget,
        _ => FrameOp::Fset,
    }
}

fn pop(w: &[u8], r: Registers) -> usize
    requires { Busy w.now r }
    ensures { (code : Code) → Flat (marked w.now r.height) (execute code (Plain 180)) w.now r w.now result }
{
    let t = state::stack::tops(w, r.height);
    if t.count < 1 {
        return UNDONE;
    }
    r.height - 1
}

// ADD, DIV, MUL and SUB of a and b, which was pushed last.
fn two_numbers(n: u16, a: Number, b: Number) -> Result<Number, NoNumber>
    requires { OneOf (201 ∷ 204 ∷ 210 ∷ 214 ∷ []) n }
    ensures { answered result ≡ effect_of (op_of n) (value.Number b) (value.Number a) }
{
    match n {
        201 => arithmetic::sum(a, b),
        204 => arithmetic::quotient(a, b),
        210 => arithmetic::product(a, b),
        _ => arithmetic::difference(a, b),
    }
}

fn reckon(w: &mut [u8], r: Registers, n: u16) -> usize
    requires { Busy w.old r × OneOf (201 ∷ 204 ∷ 210 ∷ 214 ∷ []) n }
    ensures { (code : Code) → Flat (marked w.old r.height) (execute code (Plain n)) w.old r w.new result }
{
    let t = state::stack::tops(w, r.height);
    if t.count < 2 {
        return UNDONE;
    }
    let Value::Number(b) = state::values::value_of(t.first) else {
        return UNDONE;
    };
    let Value::Number(a) = state::values::value_of(t.second) else {
        return UNDONE;
    };
    let q = Registers {
        height: r.height - 2,
        ..r
    };
    match two_numbers(n, a, b) {
        Ok(c) => height_of(state::stack::push_number(w, q, c)),
        Err(_) => FAILED,
    }
}

// AND, EQ, GE, GT and OR
fn two_values(n: u16) -> TestOp
    requires { OneOf (202 ∷ 205 ∷ 207 ∷ 208 ∷ 213 ∷ []) n }
    ensures { (Tests result ≡ op_of n) × (2 ≡ arity_of (Tests result)) }
{
    match n {
        202 => TestOp::And,
        205 => TestOp::Eq,
        207 => TestOp::Ge,
        208 => TestOp::Gt,
        _ => TestOp::Or,
    }
}

fn test(w: &mut [u8], r: Registers, o: TestOp) -> usize
    requires { Busy w.old r × (2 ≡ arity_of (Tests o)) }
    ensures { (code : Code) (n : ℕ) → Tests o ≡ op_of n → Flat (marked w.old r.height) (execute code (Plain n)) w.old r w.new result }
{
    let t = state::stack::tops(w, r.height);
    if t.count < 2 {
        return UNDONE;
    }
    // identifiers are compared by their bytes, which are not at hand here
    if t.first.kind == 2 {
        return UNDONE;
    }
    let x = state::values::value_of(t.first);
    let y = state::values::value_of(t.second);
    let e = operators::test::effect(o, x, y);
    let q = Registers {
        height: r.height - 2,
        ..r
    };
    match e {
        Some(Effect::Gives(a)) => height_of(state::stack::push_number(w, q, a)),
        _ => UNDONE,
    }
}

// GET and SHAPE. The registers come one by one: as a struct they would go through memory at every literal of a row.
fn look(
    w: &mut [u8],
    height: usize,
    depth: usize,
    used: usize,
    steps: usize,
    errors: usize,
    o: VectorOp,
) -> usize
    requires { Busy w.old (quiet height depth used steps errors) }
    ensures { (code : Code) (n : ℕ) → OnVectors o ≡ op_of n → Flat (marked w.old height) (execute code (Plain n)) w.old (quiet height depth used steps errors) w.new result }
{
    let a = reckoning::vector::arity(o);
    let t = state::stack::tops(w, height);
    if a > t.count {
        return UNDONE;
    }
    let x = state::values::value_of(t.first);
    let y = state::values::value_of(t.second);
    let e = reckoning::vector::effect(o, x, y);
    let q = Registers {
        height: height - a,
        depth,
        used,
        steps,
        errors,
        skipping: false,
    };
    match e {
        Some(Effect::Gives2(a, b)) => height_of(state::stack::push_two(w, q, a, b)),
        Some(Effect::Acts(Next::Works(Work::Element { cell }))) => height_of(store::cells::element(
            w,
            q,
            table::words::size(cell),
        )),
        _ => UNDONE,
    }
}

// An operator. No mark stands at the height `clear` or above.
fn operate(w: &mut [u8], r: Registers, n: u16, clear: usize) -> usize
    requires { Busy w.old r × (r.skipping ≡ false) × (marked w.old r.height ≤ clear) }
    ensures { (code : Code) → Flat clear (execute code (Plain n)) w.old r w.new result × ((result ≡ undone_height → ⊥) → role_of n ≡ role.Plain) }
{
    match n {
        1 => r.height,
        20 | 21 => framed(w, r, frame_op(n)),
        180 => pop(w, r),
        186 => mark(w, r, clear),
        181 => height_of(state::stack::repeat(w, r, 1)),
        185 => height_of(state::stack::exchange(w, r)),
        188 => height_of(marks::tally(w, r, clear)),
        201 | 204 | 210 | 214 => reckon(w, r, n),
        202 | 205 | 207 | 208 | 213 => test(w, r, two_values(n)),
        17 => look(
            w,
            r.height,
            r.depth,
            r.used,
            r.steps,
            r.errors,
            VectorOp::Get,
        ),
        285 => look(
            w,
            r.height,
            r.depth,
            r.used,
            r.steps,
            r.errors,
            VectorOp::Shape,
        ),
        _ => UNDONE,
    }
}

// ---- several in a row

fn undone(at: usize) -> Stride
    ensures { result ≡ record { height = undone_height; next = at; number = 0 } }
{
    Stride {
        height: UNDONE,
        next: at,
        number: NO_OPERATOR,
    }
}

// A number or a name.
fn sequence(w: &mut [u8], r: Registers, b: &[u8], at: usize) -> Stride
    requires { (length b.now ≤ 16777215) × Busy w.old r × ((at < length b.now) × (192 ≤ get_or b.now at 0)) × TokenThere b.now at }
    ensures { Strides (marked w.old r.height) b.now at w.old r w.new result }
{
    if !nesting::bodies::is_solid(b, at) {
        return undone(at);
    }
    if tokens::bits::low5(b[at]) == STRING {
        return undone(at);
    }
    if tokens::bits::low5(b[at]) == IDENTIFIER {
        let x = passing::known::extent(b, at);
        let height = height_of(state::stack::push_name(
            w,
            r,
            table::words::word(at),
            table::words::word(x.len),
        ));
        return Stride {
            height,
            next: x.next,
            number: NO_OPERATOR,
        };
    }
    match reader::reading::sequence_at(b, at) {
        Ok(tokens::Read::Number { value, next }) => {
            let height = height_of(state::stack::push_number(w, r, value));
            Stride {
                height,
                next,
                number: NO_OPERATOR,
            }
        }
        _ => undone(at),
    }
}

// The literal at `at`. At a comment nothing is done.
fn literal(w: &mut [u8], r: Registers, b: &[u8], at: usize, clear: usize) -> Stride
    requires { (length b.now ≤ 16777215) × Busy w.old r × (r.skipping ≡ false) × (marked w.old r.height ≤ clear) × TokenThere b.now at }
    ensures { Strides clear b.now at w.old r w.new result }
{
    match passing::known::form(b, at) {
        Form::Number { raw, next } => {
            let a = reader::reading::short_value(raw);
            let height = height_of(state::stack::push_number(w, r, a));
            Stride {
                height,
                next,
                number: NO_OPERATOR,
            }
        }
        Form::Operator { number, next } => {
            let height = operate(w, r, number, clear);
            Stride {
                height,
                next,
                number,
            }
        }
        Form::Sequence => sequence(w, r, b, at),
    }
}

// Literals from `at` on, as long as they can be executed here and the running body, which ends at `end`, goes on. Place and steps are not yet
// put into the table. No mark stands at the height `clear` or above.
pub fn row(
    w: &mut [u8],
    start: Registers,
    b: &[u8],
    at: usize,
    end: usize,
    most: usize,
    clear: usize,
) -> Reach
    requires { (length b.now ≤ 16777215) × Busy w.old start × (start.skipping ≡ false) × (end ≡ ending w.old start.depth) × (marked w.old start.height ≤ clear) × LiteralsLeft b.now at end }
    ensures { (result.left ≤ most) × (result.left < most → result.at ≤ length b.now) × ((result.number ≡ 0 → ⊥) → (0 < result.left) × (token_at b.now result.at ≡ Ok (read.Operator result.number result.next)) × LiteralThere b.now result.at) × (result.failed ≡ true → (0 < result.left) × ((found_at b.now result.at).next ≡ solid b.now result.next) × (result.next ≤ length b.now)) × ((code : Code) (n : ℕ) → b.now ≡ bytes_of code (origin w.old start.depth) → Rowed code b.now at n most w.old start w.new result) }
{
    let mut r = start;
    let mut p = at;
    let mut left = most;
    while left > 0 {
        let t = literal(w, r, b, p, clear);
        if t.height > 128 {
            return Reach {
                height: r.height,
                left,
                at: p,
                failed: t.height == FAILED,
                number: t.number,
                next: t.next,
            };
        }
        r.height = t.height;
        p = t.next;
        left -= 1;
        if p >= end {
            return Reach {
                height: r.height,
                left,
                at: p,
                failed: false,
                number: NO_OPERATOR,
                next: p,
            };
        }
    }
    Reach {
        height: r.height,
        left,
        at: p,
        failed: false,
        number: NO_OPERATOR,
        next: p,
    }
}
