// The token at a place of the input.
ghost use Rattle.std.specs.Prelude.{◌≡◌, ◌%◌, ◌<◌, length, get_or, pos, ◌-ℤ◌};
ghost use Rattle.tokens.specs.Refusal.{refusal_at};
ghost use Rattle.tokens.specs.Format.{bias};
ghost use Rattle.tokens.specs.Joined.{joined_at};
ghost use Rattle.tokens.specs.Token.{token_at, sequence};

use crate::judging::judge;
use crate::single::single;
use pieces::sequences::{gather, is_continued_at, piece_at};
use tokens::bits::low5;
use tokens::forms::form_at;
use tokens::{Form, Read, Refusal, Refused};

// The sequence token at `at`. Most are in a single piece; the data of any other are joined.
pub fn sequence_at(s: &[u8], at: usize) -> Result<Read, Refused>
    requires { at < length s.now }
    ensures { result ≡ sequence (get_or s.now at 0 % 32) at (joined_at s.now at) }
{
    let k = low5(s[at]);
    let Some(piece) = piece_at(s, at) else {
        return Err(Refusal::CutOff.met_at(at));
    };
    let next = piece.start + piece.len;
    if !is_continued_at(s, next) {
        return single(k, at, &s[piece.start..next], next);
    }
    match gather(k, s, piece) {
        Ok(whole) => judge(k, at, whole.sum, whole.next),
        Err(refused) => Err(Refusal::CutOff.met_at(refused.place)),
    }
}

// A short number: 15 bits less 4000.
fn short_number(raw: u16) -> i32
    ensures { result ≡ pos raw -ℤ pos bias }
{
    (raw as i32) - 4000
}

// The value of a short number of 15 bits `raw`.
pub fn short_value(raw: u16) -> numbers::Number
    ensures { result ≡ record { num = pos raw -ℤ pos bias; den = 1 } }
{
    let num = short_number(raw);
    numbers::Number { num, den: 1 }
}

// The token that stands at `at`. The end of the input is no token.
pub fn read_token(s: &[u8], at: usize) -> Result<Read, Refused>
    ensures { result ≡ token_at s.now at }
{
    let Some(form) = form_at(s, at) else {
        return Err(Refusal::CutOff.met_at(at));
    };
    match form {
        Form::Number { raw, next } => Ok(Read::Number {
            value: short_value(raw),
            next,
        }),
        Form::Operator { number, next } => Ok(Read::Operator { number, next }),
        // Taken apart by `?`: else every token goes through memory, and reading numbers back takes two thirds longer.
        Form::Sequence => Ok(sequence_at(s, at)?),
    }
}
