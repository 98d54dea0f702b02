// Tokens of bytes that have been judged, and are known to be read: told by their first bytes and their lengths, and not judged again.
ghost use Rattle.std.specs.Prelude.{◌≡◌, ◌<◌, length};
ghost use Rattle.tokens.specs.Token.{token_at};
ghost use Rattle.tokens.specs.Passing.{Shows, pass_of};
ghost use Rattle.passing.specs.Known.{Reads, Extends};

use crate::Extent;
use pieces::sequences::{gather, is_continued_at, piece_at};
use tokens::Form;
use tokens::bits::{low5, op_number, short15};

// What the first bytes at `at` tell, as `tokens::forms::form_at` does.
pub fn form(s: &[u8], at: usize) -> Form
    requires { Reads (token_at s.now at) }
    ensures { Shows s.now at result }
{
    let b = s[at];
    if b < 128 {
        return Form::Number {
            raw: short15(b, s[at + 1]),
            next: at + 2,
        };
    }
    if b < 160 {
        return Form::Operator {
            number: low5(b) as u16,
            next: at + 1,
        };
    }
    if b < 192 {
        return Form::Operator {
            number: op_number(b, s[at + 1]),
            next: at + 2,
        };
    }
    Form::Sequence
}

// The sequence token at `at`, by its lengths.
pub fn extent(s: &[u8], at: usize) -> Extent
    requires { at < length s.now }
    ensures { Extends s.now at result }
{
    let Some(piece) = piece_at(s, at) else {
        return Extent { len: 0, next: at };
    };
    let next = piece.start + piece.len;
    if !is_continued_at(s, next) {
        return Extent {
            len: piece.len,
            next,
        };
    }
    match gather(31, s, piece) {
        Ok(whole) => Extent {
            len: whole.sum.len,
            next: whole.next,
        },
        Err(refused) => Extent {
            len: 0,
            next: refused.place,
        },
    }
}

// Past the token at `at`.
pub fn past(s: &[u8], at: usize) -> usize
    requires { Reads (token_at s.now at) }
    ensures { pass_of (token_at s.now at) ≡ Ok result }
{
    match form(s, at) {
        Form::Number { raw: _, next } => next,
        Form::Operator { number: _, next } => next,
        Form::Sequence => extent(s, at).next,
    }
}
