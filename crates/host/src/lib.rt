// The calls for a C host: the library's own, each answer as two numbers (document 01, What the controller takes). Nothing else is
// decided here. `host_c` exports them, include/porthezvan.h is the other side, docs/HOST.md says the rest.
#![tactic(auto)]

ghost use Rattle.std.specs.Prelude.{◌≡◌};
ghost use Rattle.tokens.specs.Refusal.{answer_number, answer_value};
ghost use Rattle.lists.specs.Promise.{Writes, ReadsBack};
ghost use Rattle.machine.specs.Promise.{Loads, Runs, Reprints};
ghost use Rattle.host.specs.Told.{Told};

use tokens::{Outcome, refusals};

// `no` is 0 where the call was done, and `value` what it answers; else `no` is the refusal's number, and `value` its place.
#[repr(C)]
#[derive(Clone, Copy)]
pub struct Answer {
    pub no: u32,
    pub value: u64,
}

impl From<Outcome> for Answer {
    ghost from_gives = { λ outcome answer. (answer.no ≡ answer_number outcome) × (answer.value ≡ answer_value outcome) };

    fn from(outcome: Outcome) -> Answer {
        Answer {
            no: refusals::answer_number(outcome),
            value: refusals::answer_value(outcome) as u64,
        }
    }
}

// Checks a master and answers its page count.
pub fn pz_load(master: &[u8]) -> Answer
    ensures { Told (Loads master.now) result }
{
    Answer::from(skeleton::pages::load(master))
}

// Runs every body of a master and answers the page count.
pub fn pz_run(master: &[u8], allowance: i64, scratch: &mut [u8], rows: &mut [u8]) -> Answer
    ensures { Told (Runs master.now allowance scratch.old scratch.new rows.old rows.new) result }
{
    Answer::from(book::calls::run(master, allowance, scratch, rows))
}

// Runs one page of a master, or the preamble alone where `page` is 0, and answers `page`.
pub fn pz_reprint(
    master: &[u8],
    allowance: i64,
    page: i64,
    scratch: &mut [u8],
    rows: &mut [u8],
    sections: &mut [u8],
) -> Answer
    ensures { Told (Reprints master.now allowance page scratch.old scratch.new rows.old rows.new sections.old sections.new) result }
{
    Answer::from(book::calls::reprint(master, allowance, page, scratch, rows, sections))
}

// Writes a token list and answers the written length.
pub fn pz_write(list: &[u8], text: &[u8], out: &mut [u8]) -> Answer
    ensures { Told (Writes list.now text.now out.old out.new) result }
{
    Answer::from(lists::writing::write(list, text, out))
}

// Reads a token list back and answers the token count.
pub fn pz_read_back(bytes: &[u8], list: &mut [u8], text: &mut [u8]) -> Answer
    ensures { Told (ReadsBack bytes.now list.old list.new text.old text.new) result }
{
    Answer::from(back::reading::read_back(bytes, list, text))
}
