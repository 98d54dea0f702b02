// A sequence in a single piece, judged where it lies: nothing of it is kept. In order: each type's data; the token.
ghost use Rattle.std.specs.Prelude.{◌≡◌, ◌/◌, length, pos};
ghost use Rattle.numbers.specs.Fraction.{ratio_of};
ghost use Rattle.tokens.specs.Token.{number_read, integer_size, rational_size, integer_in, rational_in, ruled, judged};

use crate::judging::{integer, rational, ruled, unruled};
use pieces::text::{all_obey, is_name};
use pieces::values::{integer_size, rational_size, value_after};
use tokens::kinds::{IDENTIFIER, INTEGER, RATIONAL, STRING};
use tokens::{Read, Refusal, Refused, Rule};

fn integer_at(at: usize, part: &[u8], next: usize) -> Result<Read, Refused>
    ensures { result ≡ ruled at (integer_size (length part.now)) (number_read at next (ratio_of (integer_in (length part.now) part.now) (pos 1))) }
{
    let len = part.len();
    if !integer_size(len) {
        return Err(Refusal::BadData.met_at(at));
    }
    integer(at, value_after(0, 0, part), len, next)
}

fn rational_at(at: usize, part: &[u8], next: usize) -> Result<Read, Refused>
    ensures { result ≡ ruled at (rational_size (length part.now)) (number_read at next (rational_in (length part.now / 2) part.now)) }
{
    let len = part.len();
    if !rational_size(len) {
        return Err(Refusal::BadData.met_at(at));
    }
    rational(at, value_after(0, 0, part), len / 2, next)
}

// The token of type `k` at `at` whose data are the part and no more, and end at `next`.
pub fn single(k: u8, at: usize, part: &[u8], next: usize) -> Result<Read, Refused>
    ensures { result ≡ judged k at part.now next }
{
    let len = part.len();
    match k {
        STRING => ruled(
            at,
            all_obey(Rule::Plain, part),
            Read::String { count: len, next },
        ),
        INTEGER => integer_at(at, part, next),
        RATIONAL => rational_at(at, part, next),
        IDENTIFIER => ruled(
            at,
            is_name(Rule::Named, part),
            Read::Identifier { len, next },
        ),
        _ => unruled(k, at, next),
    }
}
