// The master around its bodies, and `load`. In order: a token where a page or END is due; all of them; the skeleton; load.
ghost use Rattle.std.specs.Prelude.{◌≡◌, [], ◌∷◌, ◌+◌, ◌*◌, ◌≤◌, length};
ghost use Rattle.machine.specs.Skeleton.{Span, pages_from, preamble_at, skeleton_of};
ghost use Rattle.machine.specs.Page.{bodies_of};
ghost use Rattle.machine.specs.Promise.{Loads};
ghost use Rattle.skeleton.specs.Spans.{Placed, Surveyed, noted};
ghost use Rattle.skeleton.specs.Turns.{page_turn, end_turn, turn_at};

use crate::Turn;
use nesting::{bodies, roles};
use tokens::{Outcome, Read, Refusal, Refused};

// The most pages.
const MOST_PAGES: usize = 512;

fn page_turn(s: &[u8], had: usize, at: usize) -> Result<Turn, Refused>
    ensures { result ≡ page_turn s.now had at }
{
    if MOST_PAGES < had {
        return Err(Refusal::TooManyPages.met_at(at));
    }
    let next = bodies::body(s, at, bodies::MOST_OPEN)?;
    Ok(Turn::Page { next })
}

fn end_turn(s: &[u8], next: usize) -> Result<Turn, Refused>
    ensures { result ≡ end_turn s.now next }
{
    if next == s.len() {
        return Ok(Turn::Ended);
    }
    Err(Refusal::AfterEnd.met_at(next))
}

// The token at `at`, where a page or END is due and `had` bodies have been read.
fn turn(s: &[u8], had: usize, at: usize) -> Result<Turn, Refused>
    ensures { result ≡ turn_at s.now had at }
{
    match reader::reading::read_token(s, at)? {
        Read::Operator { number, .. } if number == roles::OPEN => page_turn(s, had, at),
        Read::Operator { number, next } if number == roles::END => end_turn(s, next),
        Read::Comment { next } => Ok(Turn::Aside { next }),
        _ => Err(Refusal::NotAllowed.met_at(at)),
    }
}

// Two places for each body.
pub const PLACES: usize = 2 * (MOST_PAGES + 1);

// Where body n stands: its `{` is at `at`, its `}` ends at `next`.
fn note(places: &mut [usize], n: usize, at: usize, next: usize)
    requires { (2 * n + 2 ≤ length places.old) × (at + 4 ≤ next) }
    ensures { places.new ≡ noted places.old n at next }
{
    places[2 * n] = at + 2;
    places[2 * n + 1] = next - 2;
}

// Pages from `at` on, past the preamble, to the end: how many, and where each stands.
fn pages(s: &[u8], at: usize, places: &mut [usize]) -> Outcome
    requires { 1026 ≤ length places.old }
    ensures { (p : Span) → Placed s.now places.old (bodies_of s.now (p ∷ [])) → Surveyed s.now places.new (pages_from (length s.now) s.now at (p ∷ [])) result }
{
    let mut p = at;
    let mut had: usize = 1;
    loop {
        match turn(s, had, p)? {
            Turn::Aside { next } => {
                p = next;
            }
            Turn::Page { next } => {
                note(places, had, p, next);
                p = next;
                had += 1;
            }
            Turn::Ended => {
                return Ok(had - 1);
            }
        }
    }
}

// The preamble, whose `{` is due from `at` on, and the pages.
fn preamble_on(s: &[u8], at: usize, places: &mut [usize]) -> Outcome
    requires { 1026 ≤ length places.old }
    ensures { Surveyed s.now places.new (preamble_at s.now at) result }
{
    let next = bodies::body(s, at, bodies::MOST_OPEN)?;
    note(places, 0, bodies::past_comments(s, at), next);
    pages(s, next, places)
}

// Checks a master, answers its page count and leaves where each body stands.
pub fn survey(s: &[u8], places: &mut [usize]) -> Outcome
    requires { 1026 ≤ length places.old }
    ensures { Surveyed s.now places.new (skeleton_of s.now) result }
{
    if !tokens::header::begins(s) {
        return Err(Refusal::BadHeader.met_at(0));
    }
    let next = bodies::due_from(roles::BEGIN, s, 21)?;
    preamble_on(s, next, places)
}

// Checks a master and answers its page count.
pub fn load(s: &[u8]) -> Outcome
    ensures { Loads s.now result }
{
    if tokens::header::LONGEST < s.len() {
        return Err(Refusal::TooLong.met_at(0));
    }
    let mut places = [0usize; PLACES];
    survey(s, &mut places)
}
