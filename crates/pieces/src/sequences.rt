// A sequence token with all that continues it.
ghost use Rattle.std.specs.Prelude.{◌≡◌, ◌+◌, ◌-◌, ◌*◌, ◌^◌, ◌<◌, ◌≤◌, cond, ◌&&◌, eqb, length, get_or, take};
ghost use Rattle.std.proofs.Math.Seq.{slice};
ghost use Rattle.tokens.specs.Bytes.{value_after};
ghost use Rattle.tokens.specs.Text.{every};
ghost use Rattle.tokens.specs.Joined.{length_bytes, piece_at, continued, joined_from, joined_at, data_of, continuing};
ghost use Rattle.tokens.specs.Inner.{rule_of, room_of, added, Fitting, FittingSum, gathered_of};

use crate::text::all_obey;
use crate::values::value_after;
use tokens::bits::low5;
use tokens::kinds::{IDENTIFIER, INTEGER, RATIONAL, STRING};
use tokens::{Gathered, Piece, Refusal, Refused, Rule, Summary};

fn length_bytes(b: u8) -> usize
    ensures { result ≡ length_bytes b }
{
    if b < 224 { 1 } else { 3 }
}

// Where the data of the sequence token at `at` lie, if it is not cut off.
pub fn piece_at(s: &[u8], at: usize) -> Option<Piece>
    requires { at < length s.now }
    ensures { result ≡ piece_at s.now at }
{
    let k = length_bytes(s[at]);
    let start = at + 1 + k;
    if s.len() < start {
        return None;
    }
    let n = value_after(0, 0, &s[at + 1..start]) as usize;
    if s.len() - start < n {
        return None;
    }
    Some(Piece { start, len: n })
}

pub fn is_continued(b: u8) -> bool
    ensures { result ≡ continued b }
{
    if b < 192 {
        return false;
    }
    low5(b) == 7
}

// A continued token stands at `at`.
pub fn is_continued_at(s: &[u8], at: usize) -> bool
    ensures { result ≡ continued (get_or s.now at 0) }
{
    if s.len() <= at {
        return false;
    }
    is_continued(s[at])
}

// The data of the continued token at `at`, if one is there and the input has them.
pub fn next_piece(s: &[u8], at: usize) -> Option<Piece>
    requires { at < length s.now }
    ensures { result ≡ continuing s.now at }
{
    if is_continued(s[at]) {
        return piece_at(s, at);
    }
    None
}

#[tactic(auto, unfolding(tokens::specs::Inner::rule_of))]
fn rule_of(k: u8) -> Rule
    ensures { result ≡ rule_of k }
{
    match k {
        STRING => Rule::Plain,
        IDENTIFIER => Rule::Named,
        _ => Rule::Anything,
    }
}

#[tactic(auto, unfolding(tokens::specs::Inner::room_of))]
fn room_of(k: u8) -> usize
    ensures { (result ≡ room_of k) × (result ≤ 8) }
{
    match k {
        INTEGER | RATIONAL => 8,
        _ => 0,
    }
}

// The value with the first bytes of a piece set after it, as far as `room` bytes in all.
fn value_more(g: Summary, room: usize, part: &[u8]) -> u64
    requires { (room ≤ 8) × Fitting g }
    ensures { (result ≡ value_after g.value (take (room - g.len) part.now)) × (g.len + length part.now ≤ 8 → result < 2 ^ (8 * (g.len + length part.now))) }
{
    let had = g.len;
    let value = g.value;
    if room <= had {
        return value;
    }
    if part.len() < room - had {
        return value_after(value, had, part);
    }
    value_after(value, had, &part[..room - had])
}

// The first byte of the data, if `first` of `had` bytes is not.
fn first_of(first: u8, had: usize, part: &[u8]) -> u8
    ensures { result ≡ cond (eqb had 0) (get_or part.now 0 0) first }
{
    if had != 0 {
        return first;
    }
    if part.is_empty() {
        return 0;
    }
    part[0]
}

// Every byte so far obeyed the rule, and every byte of the piece does.
fn good_more(good: bool, rule: Rule, part: &[u8]) -> bool
    ensures { result ≡ good && every rule part.now }
{
    if let Rule::Anything = rule {
        return good;
    }
    if good {
        return all_obey(rule, part);
    }
    false
}

// A piece more of the data of a sequence of type `k`. In line in `gather`, and `gather` out of line: else the check of continued sequences takes
// a quarter longer.
#[inline(always)]
fn take_piece(k: u8, g: Summary, part: &[u8]) -> Summary
    requires { (g.len + length part.now < 2 ^ 63) × Fitting g }
    ensures { (result ≡ added k g part.now) × Fitting result }
{
    let had = g.len;
    let first = first_of(g.first, had, part);
    let value = value_more(g, room_of(k), part);
    let good = good_more(g.good, rule_of(k), part);
    Summary {
        len: had + part.len(),
        first,
        value,
        good,
    }
}

// The data of a sequence of type `k` whose own data are the piece `own`, with all that continues it.
#[inline(never)]
pub fn gather(k: u8, s: &[u8], own: Piece) -> Result<Gathered, Refused>
    requires { own.start + own.len ≤ length s.now }
    ensures { (result ≡ gathered_of k (joined_from (length s.now) s.now (own.start + own.len) (slice own.start (own.start + own.len) s.now))) × FittingSum result }
{
    let mut sum = take_piece(
        k,
        Summary {
            len: 0,
            first: 0,
            value: 0,
            good: true,
        },
        &s[own.start..own.start + own.len],
    );
    let mut at = own.start + own.len;
    while at < s.len() {
        if !is_continued(s[at]) {
            return Ok(Gathered { sum, next: at });
        }
        let Some(piece) = piece_at(s, at) else {
            return Err(Refusal::CutOff.met_at(at));
        };
        sum = take_piece(k, sum, &s[piece.start..piece.start + piece.len]);
        at = piece.start + piece.len;
    }
    Ok(Gathered { sum, next: at })
}

// How many bytes of data the sequence token at `at` has, with all that continues it; 0 where they are cut off. The type 31 has no rule.
pub fn data_size(s: &[u8], at: usize) -> usize
    ensures { result ≡ length (data_of (joined_at s.now at)) }
{
    if at >= s.len() {
        return 0;
    }
    let Some(piece) = piece_at(s, at) else {
        return 0;
    };
    if !is_continued_at(s, piece.start + piece.len) {
        return piece.len;
    }
    match gather(31, s, piece) {
        Ok(whole) => whole.sum.len,
        Err(_) => 0,
    }
}
