// A row: outcome, errors, steps, and the cells charged by the page itself.
#![tactic(auto)]

ghost use Rattle.std.specs.Prelude.{◌≡◌, List, ℕ, ◌+◌, ◌*◌, ◌≤◌, length};
ghost use Rattle.std.proofs.lemmas.List.Edits.{sets};
ghost use Rattle.machine.specs.Step.{outcome};
ghost use Rattle.machine.specs.Page.{result_of, row_bytes};
ghost use Rattle.state.specs.Layout.{abs};

use state::Registers;

// F 1, R 2, B 3.
pub fn outcome_of(q: Registers) -> u32
    ensures { (w : List ℕ) → result ≡ outcome (abs w q) }
{
    if q.depth > 0 {
        return 3;
    }
    if q.skipping {
        return 2;
    }
    1
}

// The row n, of a run that ended with the registers q and began with so many cells.
pub fn put_row(rows: &mut [u8], n: usize, q: Registers, before: usize)
    requires { (16 * n + 16 ≤ length rows.old) × (q.errors ≤ q.steps) × (q.steps ≤ 1000000) × (before ≤ q.used) × (q.used ≤ 1024) }
    ensures { (w : List ℕ) → rows.new ≡ sets rows.old (16 * n) (row_bytes (result_of before (abs w q))) }
{
    let p = 16 * n;
    table::words::put_word(rows, p, outcome_of(q));
    table::words::put_word(rows, p + 4, table::words::word(q.errors));
    table::words::put_word(rows, p + 8, table::words::word(q.steps));
    table::words::put_word(rows, p + 12, table::words::word(q.used - before));
}
