// The operations of 2.4.9 on numbers, exact. Every operation takes every value of its types. In order: the parts of two numbers over a common
// denominator; sum, difference, product, quotient; negative and size; the four roundings; MOD and REM; the order.
#![tactic(auto)]

ghost use Rattle.std.specs.Prelude.{◌≡◌, ◌*◌, ◌^◌, ◌<◌, ◌≤◌, ℤ, pos, nat_abs, ◌-ℤ◌, ◌*ℤ◌};
ghost use Rattle.numbers.specs.Whole.{whole_of};
ghost use Rattle.numbers.specs.Arith.{over, common, sum_of, difference_of, product_of, quotient_of, negative_of, size_of, whole_from, floor_of, ceiling_of, trunc_of, round_of, less_times, mod_of, rem_of, order_of};

use numbers::{NoNumber, Number, Whole, lowest, wholes};
use std::cmp::Ordering;

// The numerator.
fn numerator(a: Number) -> Whole
    ensures { (whole_of result ≡ a.num) × (result.size ≤ 2 ^ 31) × (result.size ≡ nat_abs a.num) }
{
    wholes::of_signed(a.num as i64)
}

// The denominator.
fn denominator(a: Number) -> Whole
    ensures { (whole_of result ≡ pos a.den) × (result.size ≡ a.den) × (result.size < 2 ^ 32) }
{
    wholes::natural(a.den as u64)
}

// a's numerator over the product of the denominators.
fn over_common(a: Number, b: Number) -> Whole
    ensures { (whole_of result ≡ over a b) × (result.size ≡ nat_abs (over a b)) × (result.size < 2 ^ 63) }
{
    wholes::times(numerator(a), denominator(b))
}

// That product.
fn common_of(a: Number, b: Number) -> Whole
    ensures { whole_of result ≡ common a b }
{
    wholes::times(denominator(a), denominator(b))
}

// ADD: a + b.
pub fn sum(a: Number, b: Number) -> Result<Number, NoNumber>
    ensures { result ≡ sum_of a b }
{
    lowest::ratio_of(
        wholes::plus(over_common(a, b), over_common(b, a)),
        common_of(a, b),
    )
}

// SUB: a - b.
pub fn difference(a: Number, b: Number) -> Result<Number, NoNumber>
    ensures { result ≡ difference_of a b }
{
    let n = wholes::plus(over_common(a, b), wholes::negated(over_common(b, a)));
    lowest::ratio_of(n, common_of(a, b))
}

// MUL: a × b.
pub fn product(a: Number, b: Number) -> Result<Number, NoNumber>
    ensures { result ≡ product_of a b }
{
    lowest::ratio_of(wholes::times(numerator(a), numerator(b)), common_of(a, b))
}

// DIV: a / b.
pub fn quotient(a: Number, b: Number) -> Result<Number, NoNumber>
    ensures { result ≡ quotient_of a b }
{
    lowest::ratio_of(over_common(a, b), over_common(b, a))
}

// NEG: -a.
pub fn negative(a: Number) -> Result<Number, NoNumber>
    ensures { result ≡ negative_of a }
{
    lowest::ratio_of(wholes::negated(numerator(a)), denominator(a))
}

// ABS: |a|.
pub fn size(a: Number) -> Result<Number, NoNumber>
    ensures { result ≡ size_of a }
{
    lowest::ratio_of(wholes::natural(numerator(a).size), denominator(a))
}

// The whole number z, made of a.
fn whole_from(a: Number, z: Whole) -> Result<Number, NoNumber>
    ensures { result ≡ whole_from a (whole_of z) }
{
    if a.den == 0 {
        return Err(NoNumber::ByZero);
    }
    lowest::ratio_of(z, wholes::natural(1))
}

// FLOOR: the greatest integer that is not above a.
pub fn floor(a: Number) -> Result<Number, NoNumber>
    ensures { result ≡ floor_of a }
{
    whole_from(a, wholes::rounded_down(numerator(a), a.den as u64))
}

// CEILING: the least integer that is not below a, which is minus the floor of -a.
pub fn ceiling(a: Number) -> Result<Number, NoNumber>
    ensures { result ≡ ceiling_of a }
{
    let den = a.den as u64;
    let down = wholes::rounded_down(wholes::negated(numerator(a)), den);
    whole_from(a, wholes::negated(down))
}

// TRUNC: the integer part of a.
pub fn trunc(a: Number) -> Result<Number, NoNumber>
    ensures { result ≡ trunc_of a }
{
    let den = a.den as u64;
    whole_from(a, wholes::cut_off(numerator(a), den))
}

// ROUND: the floor of a + 1/2, which is (2 n + d) / 2 d.
pub fn round(a: Number) -> Result<Number, NoNumber>
    ensures { result ≡ round_of a }
{
    let twice = wholes::times(numerator(a), wholes::natural(2));
    let sum = wholes::plus(twice, denominator(a));
    whole_from(a, wholes::rounded_down(sum, (a.den as u64) * 2))
}

// a - b × q, where `rest` is its numerator over the product of the denominators.
fn rest_over(a: Number, b: Number, rest: Whole) -> Result<Number, NoNumber>
    ensures { (q : ℤ) → whole_of rest ≡ over a b -ℤ over b a *ℤ q → result ≡ less_times a b q }
{
    if over_common(b, a).size == 0 {
        return Err(NoNumber::ByZero);
    }
    lowest::ratio_of(rest, common_of(a, b))
}

// MOD: a - b × FLOOR(a/b).
pub fn modulo(a: Number, b: Number) -> Result<Number, NoNumber>
    ensures { result ≡ mod_of a b }
{
    rest_over(
        a,
        b,
        wholes::rest_of_floor(over_common(a, b), over_common(b, a)),
    )
}

// REM: a - b × TRUNC(a/b).
pub fn remainder(a: Number, b: Number) -> Result<Number, NoNumber>
    ensures { result ≡ rem_of a b }
{
    rest_over(
        a,
        b,
        wholes::rest_of_trunc(over_common(a, b), over_common(b, a)),
    )
}

// Which of the two is the larger.
pub fn compare(a: Number, b: Number) -> Ordering
    ensures { result ≡ order_of a b }
{
    let x = over_common(a, b);
    let y = over_common(b, a);
    if wholes::less(x, y) {
        Ordering::Less
    } else if wholes::less(y, x) {
        Ordering::Greater
    } else {
        Ordering::Equal
    }
}
