// The literal at a place of bytes that have been judged. A body operator with its body is one literal.
ghost use Rattle.std.specs.Prelude.{◌≡◌, ◌<◌, ◌≤◌, length, get_or};
ghost use Rattle.machine.specs.Literal.{found, nothing_at, holding_at, operator_by, found_at};
ghost use Rattle.machine.specs.declared.Role.TheVariants.{Holds};
ghost use Rattle.machine.specs.Skeleton.{role_of};
ghost use Rattle.spans.specs.Memo.{Noted, BodyEnds};
ghost use Rattle.literals.specs.Dues.{LiteralThere, Is, Passes, PastOperator, Tells};

use crate::{Ahead, Bare, Due};
use machine::{Literal, Role};
use spans::WORDS;
use tokens::kinds::{IDENTIFIER, STRING};
use tokens::{Form, Read};

fn found(b: &[u8], literal: Literal, next: usize) -> Due
    ensures { Is (found b.now literal next) result }
{
    let past = nesting::bodies::past_comments(b, next);
    Due {
        literal,
        next: past,
    }
}

// No literal stands here: the body is at its end.
fn nothing(b: &[u8]) -> Due
    ensures { Is (nothing_at b.now) result }
{
    Due {
        literal: Literal::Plain { number: 0 },
        next: b.len(),
    }
}

// The operator n with the body that is due from `next` on.
fn holding(b: &[u8], n: u16, next: usize, memo: &mut [u32]) -> Due
    requires { (length b.now ≤ 16777215) × Noted b.now memo.old × BodyEnds b.now next }
    ensures { Is (holding_at b.now n next) result × Noted b.now memo.new }
{
    let open = nesting::bodies::past_comments(b, next);
    let end = spans::span_of(b, open, memo);
    let start = open + 2;
    let literal = Literal::WithBody {
        number: n,
        start: table::words::word(start),
        len: table::words::word(end - 2 - start),
    };
    found(b, literal, end)
}

// The operator n, which ends at `next`.
fn operator(b: &[u8], n: u16, next: usize, memo: &mut [u32]) -> Due
    requires { (length b.now ≤ 16777215) × Noted b.now memo.old × (role_of n ≡ Holds → BodyEnds b.now next) }
    ensures { Is (operator_by (role_of n) b.now n next) result × Noted b.now memo.new }
{
    match nesting::roles::role_of(n) {
        Role::Plain => found(b, Literal::Plain { number: n }, next),
        Role::Holds => holding(b, n, next, memo),
        _ => nothing(b),
    }
}

// A number, a name or a string at `at`, if the sequence token there is one.
fn read_sequence(b: &[u8], at: usize) -> Due
    requires { (length b.now ≤ 16777215) × ((at < length b.now) × (192 ≤ get_or b.now at 0)) }
    ensures { Is (found_at b.now at) result }
{
    let Ok(token) = reader::reading::read_token(b, at) else {
        return nothing(b);
    };
    match token {
        Read::Number { value, next } => found(b, Literal::Figure(value), next),
        Read::Identifier { len, next } => {
            let name = Literal::Name {
                start: table::words::word(at),
                len: table::words::word(len),
            };
            found(b, name, next)
        }
        Read::String { next, .. } => {
            let text = Literal::Text {
                start: table::words::word(at),
            };
            found(b, text, next)
        }
        _ => nothing(b),
    }
}

// A number, a name or a string at `at`. Only numbers are read: of the others it is enough where they end.
fn due_sequence(b: &[u8], at: usize) -> Due
    requires { (length b.now ≤ 16777215) × ((at < length b.now) × (192 ≤ get_or b.now at 0)) × LiteralThere b.now at }
    ensures { Is (found_at b.now at) result }
{
    match tokens::bits::low5(b[at]) {
        STRING => {
            let x = passing::known::extent(b, at);
            let text = Literal::Text {
                start: table::words::word(at),
            };
            found(b, text, x.next)
        }
        IDENTIFIER => {
            let x = passing::known::extent(b, at);
            let name = Literal::Name {
                start: table::words::word(at),
                len: table::words::word(x.len),
            };
            found(b, name, x.next)
        }
        _ => read_sequence(b, at),
    }
}

// The literal at `at`. `memo` has notes on where bodies of b end, and is left with more.
pub fn due(b: &[u8], at: usize, memo: &mut [u32]) -> Due
    requires { (length b.now ≤ 16777215) × Noted b.now memo.old × LiteralThere b.now at }
    ensures { Is (found_at b.now at) result × Noted b.now memo.new }
{
    match passing::known::form(b, at) {
        Form::Number { raw, next } => {
            let value = reader::reading::short_value(raw);
            found(b, Literal::Figure(value), next)
        }
        Form::Operator { number, next } => operator(b, number, next, memo),
        Form::Sequence => due_sequence(b, at),
    }
}

// ---- literals told by their first bytes

// The operator without a body at `at`, if one stands there.
pub fn bare_operator(b: &[u8], at: usize) -> Option<Bare>
    ensures { Tells b.now at result }
{
    let Some(Form::Operator { number, next }) = tokens::forms::form_at(b, at) else {
        return None;
    };
    let Role::Plain = nesting::roles::role_of(number) else {
        return None;
    };
    Some(Bare {
        number,
        next: nesting::bodies::past_comments(b, next),
    })
}

// ---- literals that are passed over

// Past the operator n, which ends at `next`, and the body that it may hold; what is noted of that is not kept.
fn past_operator(b: &[u8], n: u16, next: usize) -> usize
    requires { (length b.now ≤ 16777215) × (role_of n ≡ Holds → BodyEnds b.now next) }
    ensures { PastOperator b.now n next result }
{
    match nesting::roles::role_of(n) {
        Role::Holds => {
            let mut memo = [0u32; WORDS];
            nesting::bodies::past_comments(b, spans::pass(b, next, &mut memo))
        }
        _ => nesting::bodies::past_comments(b, next),
    }
}

const UNMARK0: u16 = 192;

// The literal at `at`, for skipping: it is not read but only passed over.
pub fn ahead(b: &[u8], at: usize) -> Ahead
    requires { (length b.now ≤ 16777215) × LiteralThere b.now at }
    ensures { Passes (found_at b.now at) result }
{
    match passing::known::form(b, at) {
        Form::Number { next, .. } => Ahead {
            next: nesting::bodies::past_comments(b, next),
            unmarks: false,
        },
        Form::Operator { number, next } => Ahead {
            next: past_operator(b, number, next),
            unmarks: number == UNMARK0,
        },
        Form::Sequence => Ahead {
            next: nesting::bodies::past_comments(b, passing::known::extent(b, at).next),
            unmarks: false,
        },
    }
}
