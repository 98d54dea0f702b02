// The public calls on whole masters: every page, or one.
ghost use Rattle.machine.specs.Promise.{Runs, Reprints};

use admission::arguments;
use skeleton::pages::PLACES;
use tokens::{Outcome, Refusal};

// Runs every body of a master, the preamble first, and answers the page count; a row for each.
pub fn run(s: &[u8], allowance: i64, scratch: &mut [u8], rows: &mut [u8]) -> Outcome
    ensures { Runs s.now allowance scratch.old scratch.new rows.old rows.new result }
{
    let mut places = [0usize; PLACES];
    let room = admission::room_to_run(scratch.len(), rows.len());
    let last = admission::admit(s, allowance, room, &mut places)?;
    let steps = arguments::count(allowance);
    let w = &mut scratch[0..admission::SCRATCH];
    masters::run_all(s, &places, last, steps, w, rows)
}

// Runs the preamble and one page of a master, or the preamble alone where `page` is 0, and answers `page`: its row and its sections.
pub fn reprint(
    s: &[u8],
    allowance: i64,
    page: i64,
    scratch: &mut [u8],
    rows: &mut [u8],
    sections: &mut [u8],
) -> Outcome
    ensures { Reprints s.now allowance page scratch.old scratch.new rows.old rows.new sections.old sections.new result }
{
    let mut places = [0usize; PLACES];
    let room = admission::room_to_reprint(scratch.len(), rows.len(), sections.len());
    let last = admission::admit(s, allowance, room, &mut places)?;
    if !admission::has_page(page, last) {
        return Err(Refusal::NoSuchPage.met_at(0));
    }
    let number = arguments::count(page);
    let steps = arguments::count(allowance);
    let w = &mut scratch[0..admission::SCRATCH];
    masters::reprint_one(s, &places, number, steps, w, rows, sections)
}
