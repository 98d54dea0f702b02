// The token that a sequence's data make, from what is known of them. In order: the refusal and numbers; texts and types without a rule;
// joined data.
ghost use Rattle.std.specs.Prelude.{◌≡◌, ◌+◌, ◌*◌, ◌/◌, ◌^◌, ◌<◌, ◌≤◌, eqb, leb, cond, ◌&&◌, pos};
ghost use Rattle.numbers.specs.Fraction.{ratio_of};
ghost use Rattle.tokens.specs.Refusal.{refusal_at};
ghost use Rattle.tokens.specs.Format.{longest_name, comment_type, continued_type};
ghost use Rattle.tokens.specs.Bytes.{signed_of};
ghost use Rattle.tokens.specs.Text.{is_letter};
ghost use Rattle.tokens.specs.Token.{number_read, integer_size, rational_size, ruled};
ghost use Rattle.tokens.specs.Inner.{Fitting, judged_by, rational_by};

use numbers::{NoNumber, Number};
use pieces::text::is_letter;
use pieces::values::{extended, high_half, integer_size, low_half, name_size, rational_size};
use tokens::kinds::{COMMENT, CONTINUED, IDENTIFIER, INTEGER, RATIONAL, STRING};
use tokens::{Read, Refusal, Refused, Summary};

// A number's token, or the refusal where there is no such number.
fn number_read(at: usize, next: usize, answer: Result<Number, NoNumber>) -> Result<Read, Refused>
    ensures { result ≡ number_read at next answer }
{
    match answer {
        Ok(value) => Ok(Read::Number { value, next }),
        Err(_) => Err(Refusal::BadData.met_at(at)),
    }
}

// The integer of `len` bytes of value `v`.
pub fn integer(at: usize, v: u64, len: usize, next: usize) -> Result<Read, Refused>
    requires { (len ≤ 4) × (v < 2 ^ (8 * len)) }
    ensures { result ≡ number_read at next (ratio_of (signed_of len v) (pos 1)) }
{
    number_read(at, next, numbers::lowest::ratio(extended(v, len), 1))
}

// The rational of value `v` in two halves of `h` bytes.
pub fn rational(at: usize, v: u64, h: usize, next: usize) -> Result<Read, Refused>
    requires { (h ≤ 4) × (v < 2 ^ (8 * h + 8 * h)) }
    ensures { result ≡ number_read at next (rational_by h v) }
{
    number_read(
        at,
        next,
        numbers::lowest::ratio(extended(high_half(v, h), h), extended(low_half(v, h), h)),
    )
}

// A text's token, if its data are good.
pub fn ruled(at: usize, good: bool, read: Read) -> Result<Read, Refused>
    ensures { result ≡ ruled at good (Ok read) }
{
    if good {
        return Ok(read);
    }
    Err(Refusal::BadData.met_at(at))
}

// A type whose data have no rule: a comment, or none that is read.
pub fn unruled(k: u8, at: usize, next: usize) -> Result<Read, Refused>
    ensures { result ≡ cond (eqb k comment_type) (Ok (Read.Comment next)) (cond (eqb k continued_type) (Err (refusal_at Refusal.NothingContinued at)) (Err (refusal_at Refusal.TypeNotRead at))) }
{
    match k {
        COMMENT => Ok(Read::Comment { next }),
        CONTINUED => Err(Refusal::NothingContinued.met_at(at)),
        _ => Err(Refusal::TypeNotRead.met_at(at)),
    }
}

fn judge_integer(at: usize, g: Summary, next: usize) -> Result<Read, Refused>
    requires { Fitting g }
    ensures { result ≡ ruled at (integer_size g.len) (number_read at next (ratio_of (signed_of g.len g.value) (pos 1))) }
{
    let len = g.len;
    if !integer_size(len) {
        return Err(Refusal::BadData.met_at(at));
    }
    integer(at, g.value, len, next)
}

fn judge_rational(at: usize, g: Summary, next: usize) -> Result<Read, Refused>
    requires { Fitting g }
    ensures { result ≡ ruled at (rational_size g.len) (number_read at next (rational_by (g.len / 2) g.value)) }
{
    let len = g.len;
    if !rational_size(len) {
        return Err(Refusal::BadData.met_at(at));
    }
    rational(at, g.value, len / 2, next)
}

// Joined data of an identifier: the first byte is a letter.
fn is_named(g: Summary) -> bool
    ensures { result ≡ leb 1 g.len && (leb g.len longest_name && (is_letter g.first && g.good)) }
{
    if !name_size(g.len) {
        return false;
    }
    if !is_letter(g.first) {
        return false;
    }
    g.good
}

// Joined data by the rules of the sequence's type.
pub fn judge(k: u8, at: usize, g: Summary, next: usize) -> Result<Read, Refused>
    requires { Fitting g }
    ensures { result ≡ judged_by k at g next }
{
    match k {
        STRING => ruled(at, g.good, Read::String { count: g.len, next }),
        INTEGER => judge_integer(at, g, next),
        RATIONAL => judge_rational(at, g, next),
        IDENTIFIER => ruled(at, is_named(g), Read::Identifier { len: g.len, next }),
        _ => unruled(k, at, next),
    }
}
