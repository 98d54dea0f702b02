// A quotient of two whole numbers in lowest terms, and only then held against the limits. In order: the limits; the quotient of
// sizes with signs; the quotient of two machine numbers; whether a numerator and a denominator are a number as they stand.
ghost use Rattle.std.specs.Prelude.{◌≡◌, ◌≤◌};
ghost use Rattle.numbers.specs.Whole.{signed, whole_of};
ghost use Rattle.numbers.specs.Fraction.{most, limited, ratio_of, is_fraction};

use crate::{NoNumber, Number, Whole, euclid, wholes};

// The largest numerator in size, and the largest denominator.
const MOST: u64 = 2147483647;

// A size with a sign before it.
fn short_number(below: bool, size: u64) -> i32
    requires { size ≤ most }
    ensures { result ≡ signed below size }
{
    if below { -(size as i32) } else { size as i32 }
}

// A fraction held against the limits.
fn inside_limits(below: bool, size: u64, den: u64) -> Result<Number, NoNumber>
    ensures { result ≡ limited (signed below size) den }
{
    if MOST < size {
        return Err(NoNumber::TooLarge);
    }
    if MOST < den {
        return Err(NoNumber::TooLarge);
    }
    Ok(Number {
        num: short_number(below, size),
        den: den as u32,
    })
}

// n / d of two whole numbers. Over 1 the quotient stands in lowest terms.
pub fn ratio_of(n: Whole, d: Whole) -> Result<Number, NoNumber>
    ensures { result ≡ ratio_of (whole_of n) (whole_of d) }
{
    if d.size == 0 {
        return Err(NoNumber::ByZero);
    }
    if d.size == 1 {
        return inside_limits(wholes::unlike(n.below, d.below), n.size, 1);
    }
    let g = euclid::gcd(n.size, d.size);
    inside_limits(wholes::unlike(n.below, d.below), n.size / g, d.size / g)
}

// n / d of two machine numbers.
pub fn ratio(n: i64, d: i64) -> Result<Number, NoNumber>
    ensures { result ≡ ratio_of n d }
{
    ratio_of(wholes::of_signed(n), wholes::of_signed(d))
}

// Whether a numerator of this size over `den` is a number as it stands.
pub fn is_fraction(size: u64, den: u64) -> bool
    ensures { result ≡ is_fraction size den }
{
    if MOST < size {
        return false;
    }
    if den < 1 {
        return false;
    }
    if MOST < den {
        return false;
    }
    euclid::gcd(size, den) == 1
}
