// A sequence token passed over. One in a single piece that obeys its rule is judged where it lies, and nothing of it is kept; any other is
// read. In order: what is known without that; each type's data; the token.
#![tactic(auto)]

ghost use Rattle.std.specs.Prelude.{◌≡◌, true, ℕ, ◌/◌, ◌<◌, ◌≤◌, length, get_or, pos};
ghost use Rattle.numbers.specs.Fraction.{ratio_of};
ghost use Rattle.tokens.specs.Token.{integer_size, rational_size, integer_in, rational_in, judged, token_at};
ghost use Rattle.tokens.specs.Passing.{pass_of, Answered};

use pieces::sequences::{is_continued_at, piece_at};
use pieces::text::{all_obey, is_name};
use pieces::values::{integer_size, rational_size, value_after};
use reader::reading::read_token;
use tokens::bits::low5;
use tokens::kinds::{COMMENT, IDENTIFIER, INTEGER, RATIONAL, STRING};
use tokens::{Refused, Rule};

pub mod known; // tokens that have been judged

// The data of a sequence token, with all that continues it: how many bytes, and where they end.
#[derive(Clone, Copy)]
pub struct Extent {
    pub len: usize,
    pub next: usize,
}

// Of the integers of up to 4 bytes this value alone, -2147483648, is outside the limits of a number.
const LEAST: u64 = 2147483648;

fn is_integer(part: &[u8]) -> bool
    ensures { result ≡ true → (integer_size (length part.now) ≡ true) × Answered (ratio_of (integer_in (length part.now) part.now) (pos 1)) }
{
    if !integer_size(part.len()) {
        return false;
    }
    value_after(0, 0, part) != LEAST
}

// A rational that is inside the limits before it is reduced.
fn is_rational(part: &[u8]) -> bool
    ensures { result ≡ true → (rational_size (length part.now) ≡ true) × Answered (rational_in (length part.now / 2) part.now) }
{
    if !rational_size(part.len()) {
        return false;
    }
    let h = part.len() / 2;
    if value_after(0, 0, &part[..h]) == LEAST {
        return false;
    }
    let d = value_after(0, 0, &part[h..]);
    if d == LEAST {
        return false;
    }
    d != 0
}

// The data of a sequence of type `k` obey its rule: seen at once, so that `false` says nothing.
fn is_sound(k: u8, part: &[u8]) -> bool
    ensures { result ≡ true → (at next : ℕ) → pass_of (judged k at part.now next) ≡ Ok next }
{
    match k {
        STRING => all_obey(Rule::Plain, part),
        INTEGER => is_integer(part),
        RATIONAL => is_rational(part),
        IDENTIFIER => is_name(Rule::Named, part),
        _ => k == COMMENT,
    }
}

// Past the sequence token at `at`.
pub fn pass_sequence(s: &[u8], at: usize) -> Result<usize, Refused>
    requires { (at < length s.now) × (192 ≤ get_or s.now at 0) }
    ensures { result ≡ pass_of (token_at s.now at) }
{
    if let Some(piece) = piece_at(s, at) {
        let next = piece.start + piece.len;
        if !is_continued_at(s, next) {
            if is_sound(low5(s[at]), &s[piece.start..next]) {
                return Ok(next);
            }
        }
    }
    Ok(read_token(s, at)?.next_place())
}
