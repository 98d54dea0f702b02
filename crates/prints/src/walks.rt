// Bodies of a master run, by the places where they stand. In order: the preamble; a page; its row; every page.
ghost use Rattle.std.specs.Prelude.{◌≡◌, List, ℕ, ◌+◌, ◌*◌, ◌≤◌, length, get_or};
ghost use Rattle.std.proofs.Math.Seq.{slice};
ghost use Rattle.std.proofs.lemmas.List.Edits.{sets};
ghost use Rattle.machine.specs.Page.{rows_from};
ghost use Rattle.machine.specs.Readable.{Whole};
ghost use Rattle.skeleton.specs.Spans.{Placed};
ghost use Rattle.prints.specs.Ran.{Preambled, Paged, Ready, Rowed, Holds};

use state::Registers;

// The preamble of the master s, whose bytes are a to e.
pub fn preamble_of(w: &mut [u8], s: &[u8], a: usize, e: usize, allowance: usize) -> Registers
    requires { (48000 ≤ length w.old) × (length s.now ≤ 16777215) × (a ≤ e) × (e ≤ length s.now) × (allowance ≤ 1000000) × Whole (slice a e s.now) }
    ensures { Preambled (slice a e s.now) allowance w.new result }
{
    crate::pages::preamble(w, &s[a..e], &s[0..0], allowance)
}

// A page of the master s, whose bytes are b to f; the preamble's are a to e, and `used` cells are its.
pub fn page_of(
    w: &mut [u8],
    s: &[u8],
    a: usize,
    e: usize,
    b: usize,
    f: usize,
    used: usize,
    allowance: usize,
) -> Registers
    requires { Ready (slice a e s.now) allowance used w.old × (length s.now ≤ 16777215) × (a ≤ e) × (e ≤ length s.now) × (b ≤ f) × (f ≤ length s.now) × (allowance ≤ 1000000) × Whole (slice a e s.now) × Whole (slice b f s.now) }
    ensures { Paged (slice a e s.now) (slice b f s.now) used allowance w.old w.new result }
{
    crate::pages::page(w, &s[a..e], &s[b..f], used, allowance)
}

// The same, and its row, the n-th.
fn page_row(
    w: &mut [u8],
    s: &[u8],
    a: usize,
    e: usize,
    b: usize,
    f: usize,
    used: usize,
    allowance: usize,
    rows: &mut [u8],
    n: usize,
)
    requires { Ready (slice a e s.now) allowance used w.old × (length s.now ≤ 16777215) × (a ≤ e) × (e ≤ length s.now) × (b ≤ f) × (f ≤ length s.now) × (allowance ≤ 1000000) × Whole (slice a e s.now) × Whole (slice b f s.now) × (16 * n + 16 ≤ length rows.old) }
    ensures { Rowed (slice a e s.now) (slice b f s.now) allowance used n w.new rows.old rows.new }
{
    let q = page_of(w, s, a, e, b, f, used, allowance);
    rows::put_row(rows, n, q, used);
}

// Pages 1 to `last`, one after another, and their rows; the rows before are written.
pub fn every_page(
    w: &mut [u8],
    s: &[u8],
    places: &[usize],
    last: usize,
    used: usize,
    allowance: usize,
    rows: &mut [u8],
)
    requires { Holds s.now places.now last × Ready (slice (get_or places.now 0 0) (get_or places.now 1 0) s.now) allowance used w.old × (length s.now ≤ 16777215) × (allowance ≤ 1000000) × (8208 ≤ length rows.old) }
    ensures { (bodies : List (List ℕ)) (t : List ℕ) → Placed s.now places.now bodies → length bodies ≡ last + 1 → rows.old ≡ sets t 0 (rows_from allowance bodies 0 1) → rows.new ≡ sets t 0 (rows_from allowance bodies 0 (last + 1)) }
{
    let a = places[0];
    let e = places[1];
    let mut n: usize = 1;
    while n <= last {
        page_row(
            w,
            s,
            a,
            e,
            places[2 * n],
            places[2 * n + 1],
            used,
            allowance,
            rows,
            n,
        );
        n += 1;
    }
}
