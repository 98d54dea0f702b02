// Whole numbers as sign and size, so that the steps of an operation need no signed arithmetic. In order: made of a number;
// negated, added, multiplied, compared; divided by a size, rounded down and toward zero; what the two divisions leave.
// A zero may have either sign.
ghost use Rattle.std.specs.Prelude.{◌≡◌, ◌+◌, ◌*◌, ◌/◌, ◌^◌, ◌<◌, pos, neg_ℤ, nat_abs, ◌+ℤ◌, ◌-ℤ◌, ◌*ℤ◌};
ghost use Rattle.std.specs.Bool.{xor};
ghost use Rattle.std.specs.Int.Signed.{lt_z, quot_z};
ghost use Rattle.numbers.specs.Whole.{whole_of, floor_by, floor_quotient, trunc_quotient};

use crate::Whole;

pub fn natural(n: u64) -> Whole
    ensures { (whole_of result ≡ pos n) × (result.size ≡ n) }
{
    Whole {
        below: false,
        size: n,
    }
}

pub fn of_signed(n: i64) -> Whole
    ensures { (whole_of result ≡ n) × (result.size ≡ nat_abs n) }
{
    if n < 0 {
        Whole {
            below: true,
            size: ((-(n + 1)) as u64) + 1,
        }
    } else {
        Whole {
            below: false,
            size: n as u64,
        }
    }
}

// Whether two signs differ.
pub fn unlike(a: bool, b: bool) -> bool
    ensures { result ≡ xor a b }
{
    if a { !b } else { b }
}

pub fn negated(a: Whole) -> Whole
    ensures { (whole_of result ≡ neg_ℤ (whole_of a)) × (result.size ≡ a.size) }
{
    Whole {
        below: !a.below,
        size: a.size,
    }
}

pub fn plus(a: Whole, b: Whole) -> Whole
    requires { a.size + b.size < 2 ^ 64 }
    ensures { whole_of result ≡ whole_of a +ℤ whole_of b }
{
    if unlike(a.below, b.below) {
        if a.size < b.size {
            Whole {
                below: b.below,
                size: b.size - a.size,
            }
        } else {
            Whole {
                below: a.below,
                size: a.size - b.size,
            }
        }
    } else {
        Whole {
            below: a.below,
            size: a.size + b.size,
        }
    }
}

pub fn times(a: Whole, b: Whole) -> Whole
    requires { a.size * b.size < 2 ^ 64 }
    ensures { (whole_of result ≡ whole_of a *ℤ whole_of b) × (result.size ≡ a.size * b.size) }
{
    Whole {
        below: unlike(a.below, b.below),
        size: a.size * b.size,
    }
}

pub fn less(a: Whole, b: Whole) -> bool
    ensures { result ≡ lt_z (whole_of a) (whole_of b) }
{
    if a.below {
        if b.below {
            b.size < a.size
        } else {
            0 < a.size || 0 < b.size
        }
    } else if b.below {
        false
    } else {
        a.size < b.size
    }
}

// The whole part of n / d; 0 where d is 0, as in the definitions.
fn whole_part(n: u64, d: u64) -> u64
    ensures { result ≡ n / d }
{
    if d == 0 { 0 } else { n / d }
}

// n / d rounded up, which is minus the floor of -n / d: (n + 1) / d rounds up to n / d + 1.
fn whole_above(n: u64, d: u64) -> u64
    ensures { neg_ℤ (pos result) ≡ floor_by (neg_ℤ (pos n)) d }
{
    if n == 0 { 0 } else { whole_part(n - 1, d) + 1 }
}

// n / d rounded down.
pub fn rounded_down(n: Whole, d: u64) -> Whole
    ensures { whole_of result ≡ floor_by (whole_of n) d }
{
    if n.below {
        Whole {
            below: true,
            size: whole_above(n.size, d),
        }
    } else {
        Whole {
            below: false,
            size: whole_part(n.size, d),
        }
    }
}

// n / d rounded toward zero.
pub fn cut_off(n: Whole, d: u64) -> Whole
    ensures { whole_of result ≡ quot_z (whole_of n) (pos d) }
{
    Whole {
        below: n.below,
        size: whole_part(n.size, d),
    }
}

// x - y × q, q being x / y rounded toward zero.
pub fn rest_of_trunc(x: Whole, y: Whole) -> Whole
    ensures { whole_of result ≡ whole_of x -ℤ whole_of y *ℤ trunc_quotient (whole_of x) (whole_of y) }
{
    if y.size == 0 {
        return x;
    }
    Whole {
        below: x.below,
        size: x.size % y.size,
    }
}

// x - y × q, q being x / y rounded down: it has the sign of y.
pub fn rest_of_floor(x: Whole, y: Whole) -> Whole
    ensures { whole_of result ≡ whole_of x -ℤ whole_of y *ℤ floor_quotient (whole_of x) (whole_of y) }
{
    if y.size == 0 {
        return x;
    }
    let rest = x.size % y.size;
    if rest == 0 {
        return natural(0);
    }
    if unlike(x.below, y.below) {
        Whole {
            below: y.below,
            size: y.size - rest,
        }
    } else {
        Whole {
            below: x.below,
            size: rest,
        }
    }
}
