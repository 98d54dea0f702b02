// Every body of a master run, or the preamble and one page. The table is clear afterwards. In order so.
#![tactic(auto)]

ghost use Rattle.std.specs.Prelude.{◌≡◌, List, ℕ, ◌+◌, ◌*◌, ◌<◌, ◌≤◌, length, get_or, replicate};
ghost use Rattle.std.proofs.Math.Seq.{slice};
ghost use Rattle.machine.specs.Limits.{scratch_size};
ghost use Rattle.machine.specs.Page.{result_of, result_at};
ghost use Rattle.skeleton.specs.Spans.{Placed};
ghost use Rattle.state.specs.Layout.{abs, Good};
ghost use Rattle.prints.specs.Ran.{Preambled, Holds, RanAll, Shown, Reprinted};

use admission::SCRATCH;
use state::Registers;
use tokens::{Outcome, Refusal};

// A preamble that ran out of steps.
const OUT_OF_STEPS: u32 = 3;

// The table as it is left.
fn wipe(w: &mut [u8])
    requires { length w.old ≡ 48000 }
    ensures { w.new ≡ replicate scratch_size 0 }
{
    table::slots::clear(w, SCRATCH);
}

// The preamble and pages 1 to `last`.
pub fn run_all(
    s: &[u8],
    places: &[usize],
    last: usize,
    allowance: usize,
    w: &mut [u8],
    rows: &mut [u8],
) -> Outcome
    requires { Holds s.now places.now last × (length s.now ≤ 16777215) × (allowance ≤ 1000000) × (length w.old ≡ 48000) × (8208 ≤ length rows.old) }
    ensures { (bodies : List (List ℕ)) → Placed s.now places.now bodies → length bodies ≡ last + 1 → RanAll allowance bodies w.new rows.old rows.new result }
{
    let q = prints::walks::preamble_of(w, s, places[0], places[1], allowance);
    if rows::outcome_of(q) == OUT_OF_STEPS {
        wipe(w);
        return Err(Refusal::PreambleUnfinished.met_at(0));
    }
    rows::put_row(rows, 0, q, 0);
    prints::walks::every_page(w, s, places, last, q.used, allowance, rows);
    wipe(w);
    Ok(last)
}

// The row and the sections of a result, of a run that ended in w with the registers q and began with so many cells.
fn show(w: &[u8], q: Registers, before: usize, page: usize, rows: &mut [u8], sections: &mut [u8])
    requires { Good w.now q × (q.steps ≤ 1000000) × (before ≤ q.used) × (16 * page + 16 ≤ length rows.old) × (24052 ≤ length sections.old) }
    ensures { Shown (result_of before (abs w.now q)) page rows.old rows.new sections.old sections.new }
{
    rows::put_row(rows, page, q, before);
    sections::put_sections(sections, w, q, before);
}

// The result of one body, shown: the preamble's, which ended in w with q, or a page's, run from there.
fn print_one(
    s: &[u8],
    places: &[usize],
    page: usize,
    allowance: usize,
    w: &mut [u8],
    q: Registers,
    rows: &mut [u8],
    sections: &mut [u8],
)
    requires { Holds s.now places.now page × Preambled (slice (get_or places.now 0 0) (get_or places.now 1 0) s.now) allowance w.old q × (length s.now ≤ 16777215) × (allowance ≤ 1000000) × (8208 ≤ length rows.old) × (24052 ≤ length sections.old) }
    ensures { (bodies : List (List ℕ)) → Placed s.now places.now bodies → page < length bodies → Shown (result_at allowance bodies page) page rows.old rows.new sections.old sections.new }
{
    if page == 0 {
        show(w, q, 0, 0, rows, sections);
        return;
    }
    let used = q.used;
    let b = places[2 * page];
    let f = places[2 * page + 1];
    let r = prints::walks::page_of(w, s, places[0], places[1], b, f, used, allowance);
    show(w, r, used, page, rows, sections);
}

// The preamble, then one page, or none where `page` is 0.
pub fn reprint_one(
    s: &[u8],
    places: &[usize],
    page: usize,
    allowance: usize,
    w: &mut [u8],
    rows: &mut [u8],
    sections: &mut [u8],
) -> Outcome
    requires { Holds s.now places.now page × (length s.now ≤ 16777215) × (allowance ≤ 1000000) × (length w.old ≡ 48000) × (8208 ≤ length rows.old) × (24052 ≤ length sections.old) }
    ensures { (bodies : List (List ℕ)) → Placed s.now places.now bodies → page < length bodies → Reprinted allowance page bodies w.new rows.old rows.new sections.old sections.new result }
{
    let q = prints::walks::preamble_of(w, s, places[0], places[1], allowance);
    if rows::outcome_of(q) == OUT_OF_STEPS {
        wipe(w);
        return Err(Refusal::PreambleUnfinished.met_at(0));
    }
    print_one(s, places, page, allowance, w, q, rows, sections);
    wipe(w);
    Ok(page)
}
