// What is judged of a master, an allowance and the lent tables before anything runs.
#![tactic(auto)]

pub mod arguments; // numbers as they come from outside

ghost use Rattle.std.specs.Prelude.{◌≡◌, ◌&&◌, ◌≤◌, leb, pos, length};
ghost use Rattle.std.specs.Int.Signed.{le_z};
ghost use Rattle.machine.specs.Limits.{most_pages, scratch_size, rows_size, sections_size};
ghost use Rattle.admission.specs.Judged.{Admitted};

use tokens::{Outcome, Refusal};

// The most steps that may be allowed.
const MOST_STEPS: i64 = 1000000;

// The bytes of the table.
pub const SCRATCH: usize = 48000;

// The bytes of the rows.
const ROWS: usize = 8208;

// The bytes of the sections.
const SECTIONS: usize = 24052;

// Whether the tables of a run, by their lengths, are long enough.
pub fn room_to_run(scratch: usize, rows: usize) -> bool
    ensures { result ≡ (leb scratch_size scratch && leb rows_size rows) }
{
    SCRATCH <= scratch && ROWS <= rows
}

// Whether the tables of a reprint are.
pub fn room_to_reprint(scratch: usize, rows: usize, sections: usize) -> bool
    ensures { result ≡ (leb scratch_size scratch && (leb rows_size rows && leb sections_size sections)) }
{
    room_to_run(scratch, rows) && SECTIONS <= sections
}

// Whether a master of so many pages has that page; page 0 is the preamble.
pub fn has_page(page: i64, last: usize) -> bool
    requires { last ≤ most_pages }
    ensures { result ≡ (le_z (pos 0) page && le_z page (pos last)) }
{
    arguments::within(page, 0, last as i64)
}

// What is judged before anything runs; `enough`: every lent table is long enough. Answers the page count, and where each body stands.
pub fn admit(s: &[u8], allowance: i64, enough: bool, places: &mut [usize]) -> Outcome
    requires { 1026 ≤ length places.old }
    ensures { Admitted s.now allowance enough places.new result }
{
    if tokens::header::LONGEST < s.len() {
        return Err(Refusal::TooLong.met_at(0));
    }
    if !enough {
        return Err(Refusal::TableTooShort.met_at(0));
    }
    if !arguments::within(allowance, 1, MOST_STEPS) {
        return Err(Refusal::BadAllowance.met_at(0));
    }
    skeleton::pages::survey(s, places)
}
