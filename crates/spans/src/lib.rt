// A body passed over once: where it ends is noted, and where each body inside it ends, so that none is passed over again. It has been judged
// and is known to end. In order: the notes; the pass.
#![tactic(auto)]

ghost use Rattle.std.specs.Prelude.{◌≡◌, ◌<◌, ◌≤◌, length};
ghost use Rattle.machine.specs.Limits.{most_open};
ghost use Rattle.machine.specs.Skeleton.{body_at};
ghost use Rattle.spans.specs.Memo.{Noted, with_note, SeenIfAny, BodyEnds};

use nesting::bodies::MOST_OPEN;

// ---- the notes

// So many notes, of two words each: the place where a body is due, 0 for none, and where it ends.
const NOTES: usize = 64;

// The words of a table of notes. All of them 0, it has none yet.
pub const WORDS: usize = 2 * NOTES;

// The body due at `at` ends at `end`. The note in whose place this one stands is lost.
fn note(memo: &mut [u32], at: usize, end: usize)
    requires { (128 ≤ length memo.old) × (at < 4294967296) × (end < 4294967296) }
    ensures { memo.new ≡ with_note memo.old at end }
{
    let i = 2 * (at % NOTES);
    memo[i] = table::words::word(at);
    memo[i + 1] = table::words::word(end);
}

// Where the body due at `at` ends, if that is noted.
pub fn seen(memo: &[u32], at: usize) -> Option<usize>
    requires { 128 ≤ length memo.now }
    ensures { SeenIfAny memo.now at result }
{
    if at == 0 {
        return None;
    }
    let i = 2 * (at % NOTES);
    if table::words::size(memo[i]) == at {
        return Some(table::words::size(memo[i + 1]));
    }
    None
}

// ---- the pass

// The first byte of a long operator with a number below 256, which is its second byte.
const LONG: u8 = 160;

const OPEN: u8 = 106;

const CLOSE: u8 = 107;

// Where the body ends whose `{` is due from `at` on, by the braces between. `starts` says where the `{` of each open one stands.
pub fn pass(s: &[u8], at: usize, memo: &mut [u32]) -> usize
    requires { (length s.now ≤ 16777215) × Noted s.now memo.old × BodyEnds s.now at }
    ensures { (body_at most_open s.now at ≡ Ok result) × Noted s.now memo.new }
{
    let mut starts = [0usize; MOST_OPEN];
    let mut count: usize = 0;
    let mut p = at;
    loop {
        if s[p] != LONG {
            p = passing::known::past(s, p);
            continue;
        }
        let n = s[p + 1];
        let next = p + 2;
        if n == OPEN {
            starts[count] = p;
            count += 1;
            p = next;
            continue;
        }
        if n == CLOSE {
            count -= 1;
            note(memo, starts[count], next);
            if count == 0 {
                return next;
            }
        }
        p = next;
    }
}

// Where the body ends whose `{` is due from `at` on, by the notes or passed over.
pub fn span_of(s: &[u8], at: usize, memo: &mut [u32]) -> usize
    requires { (length s.now ≤ 16777215) × Noted s.now memo.old × BodyEnds s.now at }
    ensures { (body_at most_open s.now at ≡ Ok result) × Noted s.now memo.new }
{
    if let Some(end) = seen(memo, at) {
        return end;
    }
    pass(s, at, memo)
}
