// The reading point, the bytes together with the place reached, handed from token to token. Each function over it takes it apart and
// calls one that is proved on slice and place. Callers use `take` and `left_at`, which need no walk of theirs.
#![tactic(auto)]

ghost use Rattle.std.specs.Prelude.{◌≡◌, ◌-◌, length};
ghost use Rattle.tokens.specs.Token.{token_at};
ghost use Rattle.points.specs.Point.{next_of, taken_at};

use reader::reading::read_token;
use tokens::{Read, Refused};

#[derive(Clone, Copy)]
pub struct Reader<'a> {
    src: &'a [u8],
    at: usize,
}

// A token, and the place after it.
#[derive(Clone, Copy)]
pub struct Taken {
    pub token: Result<Read, Refused>,
    pub next: usize,
}

// The place after the token t, which was read at `at`.
fn next_of(at: usize, t: Result<Read, Refused>) -> usize
    ensures { result ≡ next_of at t }
{
    match t {
        Ok(token) => token.next_place(),
        Err(_) => at,
    }
}

impl<'a> Reader<'a> {
    // The reading point at a place of the bytes.
    pub fn at(src: &'a [u8], at: usize) -> Reader<'a>
        ensures { result ≡ record { src = src.entry; at = at } }
    {
        Reader { src, at }
    }

    // The token at the reading point.
    pub fn token(self) -> Result<Read, Refused>
        ensures { result ≡ token_at self.entry.src.now self.entry.at }
    {
        read_token(self.src, self.at)
    }

    // The reading point handed on past the token t, which was read there.
    pub fn past(self, t: Result<Read, Refused>) -> Reader<'a>
        ensures { result ≡ record { src = self.entry.src; at = next_of self.entry.at t } }
    {
        Reader {
            src: self.src,
            at: next_of(self.at, t),
        }
    }

    // How many bytes are left.
    pub fn left(self) -> usize
        ensures { result ≡ length self.entry.src.now - self.entry.at }
    {
        self.src.len().saturating_sub(self.at)
    }
}

// The token at a place, and the place that the reading point is handed on to.
pub fn take(s: &[u8], at: usize) -> Taken
    ensures { result ≡ taken_at s.now at }
{
    let here = Reader::at(s, at);
    let token = here.token();
    let on = here.past(token);
    Taken { token, next: on.at }
}

// How many bytes are left at a place.
pub fn left_at(s: &[u8], at: usize) -> usize
    ensures { result ≡ length s.now - at }
{
    Reader::at(s, at).left()
}
