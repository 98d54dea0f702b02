// Bodies and literals. In order: comments passed over; the operator that is due; a body and its literals, each by the other.
ghost use Rattle.std.specs.Prelude.{◌≡◌, true, length};
ghost use Rattle.tokens.specs.Token.{token_at};
ghost use Rattle.machine.specs.Readable.{NoComment};
ghost use Rattle.machine.specs.Skeleton.{solid, due_by, due, literals_from, body_at, literal_at};

use crate::roles;
use machine::Role;
use passing::pass_sequence;
use tokens::forms::form_at;
use tokens::kinds::COMMENT;
use tokens::{Form, Read, Refusal, Refused};

// The most bodies that may be open at once.
pub const MOST_OPEN: usize = 16;

// By its first byte alone, no comment stands at `at`.
pub fn is_solid(s: &[u8], at: usize) -> bool
    ensures { result ≡ true → NoComment (token_at s.now at) }
{
    if s.len() <= at {
        return true;
    }
    tokens::bits::low5(s[at]) != COMMENT
}

// Past comments, each read as a token: the reading point is handed on from one to the next.
fn pass_comments(s: &[u8], at: usize) -> usize
    ensures { result ≡ solid s.now at }
{
    let mut p = at;
    loop {
        let taken = points::take(s, p);
        let Ok(token) = taken.token else {
            return p;
        };
        let Read::Comment { .. } = token else {
            return p;
        };
        p = taken.next;
    }
}

// The first place from `at` on where no comment stands. Most often that is `at`, and then one byte tells.
pub fn past_comments(s: &[u8], at: usize) -> usize
    ensures { result ≡ solid s.now at }
{
    if is_solid(s, at) {
        return at;
    }
    pass_comments(s, at)
}

// Past the operator n, which is due at `at`.
pub fn due_here(n: u16, s: &[u8], at: usize) -> Result<usize, Refused>
    ensures { result ≡ due_by n at (token_at s.now at) }
{
    let Some(form) = form_at(s, at) else {
        return Err(Refusal::CutOff.met_at(at));
    };
    match form {
        Form::Operator { number, next } if number == n => Ok(next),
        Form::Sequence => {
            pass_sequence(s, at)?;
            Err(Refusal::NotAllowed.met_at(at))
        }
        _ => Err(Refusal::NotAllowed.met_at(at)),
    }
}

// Past the operator n, which is due from `at` on, comments aside.
pub fn due_from(n: u16, s: &[u8], at: usize) -> Result<usize, Refused>
    ensures { result ≡ due n s.now at }
{
    due_here(n, s, past_comments(s, at))
}

// The body whose `{` is due from `at` on, where `left` more bodies may be open.
#[cycle(body_literals)]
pub fn body(s: &[u8], at: usize, left: usize) -> Result<usize, Refused>
    ensures { result ≡ body_at left s.now at }
{
    let q = past_comments(s, at);
    let next = due_here(roles::OPEN, s, q)?;
    if left == 0 {
        return Err(Refusal::TooDeep.met_at(q));
    }
    literals(s, next, left - 1)
}

// Literals and comments from `at` on, up to the `}` of a body in which `left` more bodies may be open.
#[cycle(body_literals)]
fn literals(s: &[u8], at: usize, left: usize) -> Result<usize, Refused>
    ensures { result ≡ literals_from (length s.now) (literal_at left s.now) at }
{
    let mut p = at;
    loop {
        let Some(form) = form_at(s, p) else {
            return Err(Refusal::CutOff.met_at(p));
        };
        p = match form {
            Form::Number { next, .. } => next,
            Form::Operator { number, next } => match roles::role_of(number) {
                Role::Plain => next,
                Role::Holds => body(s, next, left)?,
                Role::Closes => return Ok(next),
                Role::Barred => return Err(Refusal::NotAllowed.met_at(p)),
            },
            Form::Sequence => pass_sequence(s, p)?,
        };
    }
}
