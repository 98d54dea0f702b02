// The archive for C: the calls of `host`, exported under the names that include/porthezvan.h declares. Nothing is decided here.
#![tactic(auto)]

ghost use Rattle.lists.specs.Promise.{Writes, ReadsBack};
ghost use Rattle.machine.specs.Promise.{Loads, Runs, Reprints};
ghost use Rattle.host.specs.Told.{Told};

use host::Answer;

// Checks a master and answers its page count.
#[unsafe(no_mangle)]
pub extern "C" fn pz_load(master: &[u8]) -> Answer
    ensures { Told (Loads master.now) result }
{
    host::pz_load(master)
}

// Runs every body of a master and answers the page count.
#[unsafe(no_mangle)]
pub extern "C" fn pz_run(
    master: &[u8],
    allowance: i64,
    scratch: &mut [u8],
    rows: &mut [u8],
) -> Answer
    ensures { Told (Runs master.now allowance scratch.old scratch.new rows.old rows.new) result }
{
    host::pz_run(master, allowance, scratch, rows)
}

// Runs one page of a master, or the preamble alone where `page` is 0, and answers `page`.
#[unsafe(no_mangle)]
pub extern "C" fn pz_reprint(
    master: &[u8],
    allowance: i64,
    page: i64,
    scratch: &mut [u8],
    rows: &mut [u8],
    sections: &mut [u8],
) -> Answer
    ensures { Told (Reprints master.now allowance page scratch.old scratch.new rows.old rows.new sections.old sections.new) result }
{
    host::pz_reprint(master, allowance, page, scratch, rows, sections)
}

// Writes a token list and answers the written length.
#[unsafe(no_mangle)]
pub extern "C" fn pz_write(list: &[u8], text: &[u8], out: &mut [u8]) -> Answer
    ensures { Told (Writes list.now text.now out.old out.new) result }
{
    host::pz_write(list, text, out)
}

// Reads a token list back and answers the token count.
#[unsafe(no_mangle)]
pub extern "C" fn pz_read_back(bytes: &[u8], list: &mut [u8], text: &mut [u8]) -> Answer
    ensures { Told (ReadsBack bytes.now list.old list.new text.old text.new) result }
{
    host::pz_read_back(bytes, list, text)
}
