// Runs every case of the data file over the library, and says how many were right and which were wrong. tools/make_cases.py makes
// the file and says what a record is. In order: texts; a record; what is left in a table; the tables lent; a case; all of them.
#![tactic(auto)]

ghost use Rattle.std.specs.Prelude.{◌+◌, ◌≤◌, length, IfSome};
ghost use Rattle.std.specs.Iterator.{at_most};

use input::read_full;
use std::{fs, io};
use tokens::Outcome;
use tokens::refusals::{answer_number, answer_value};

// The longest data file.
const LONGEST: usize = 196608;

// The longest tables.
const FIRST: usize = 49152;

const SECOND: usize = 16384;

const THIRD: usize = 24576;

// What every byte of a lent table holds before a call.
const LENT: u8 = 165;

// Where the texts of a record begin, after eight numbers.
const TEXTS: usize = 32;

// The first text, after its length, and the bytes after it.
fn split_text(bytes: &[u8]) -> Option<(&[u8], &[u8])>
    ensures { IfSome result (λ r. length r.1.now + 4 ≤ length bytes.now) }
{
    let (len, rest) = bytes.split_first_chunk()?;
    rest.split_at_checked(u32::from_le_bytes(*len) as usize)
}

// One text after another. One that is cut off is empty, and the last.
#[derive(Drop)]
struct Texts<'a>(&'a [u8]);

impl<'a> Iterator for Texts<'a> {
    type Item = &'a [u8];

    ghost remaining = { λ s. at_most (length s.0.now) };

    fn next(&mut self) -> Option<&'a [u8]> {
        if self.0.is_empty() {
            return None;
        }
        let (text, rest) = split_text(self.0).unwrap_or((&[], &[]));
        self.0 = rest;
        Some(text)
    }
}

impl<'a> Texts<'a> {
    // The next text, empty after the last.
    fn text(&mut self) -> &'a [u8] {
        let text = self.next();
        text.unwrap_or(&[])
    }
}

// The number k of a record, 0 past its end.
fn word(record: &[u8], k: usize) -> u32 {
    record
        .as_chunks()
        .0
        .get(k)
        .map_or(0, |bytes| u32::from_le_bytes(*bytes))
}

fn number(record: &[u8], k: usize) -> usize {
    word(record, k) as usize
}

fn signed(record: &[u8], k: usize) -> i64 {
    i64::from(word(record, k).cast_signed())
}

// The call of a case.
#[derive(Clone, Copy)]
enum Call {
    ReadBack,
    Write,
    Load,
    Run,
    Reprint,
}

impl From<u32> for Call {
    fn from(word: u32) -> Call {
        match word {
            1 => Call::ReadBack,
            2 => Call::Write,
            3 => Call::Load,
            4 => Call::Run,
            _ => Call::Reprint,
        }
    }
}

// A case, as its record says it.
#[derive(Clone, Copy)]
struct Case<'a> {
    call: Call,

    // Number and value.
    answer: (u32, usize),

    // The arguments.
    allowance: i64,
    page: i64,
    input: &'a [u8],
    text: &'a [u8],

    // How long each table is that is lent, and what is left in it.
    lengths: [usize; 3],
    left: [&'a [u8]; 3],
    name: &'a [u8],
}

impl<'a> Case<'a> {
    fn read(record: &'a [u8]) -> Case<'a> {
        let mut texts = Texts(record.get(TEXTS..).unwrap_or(&[]));
        let name = texts.text();
        let input = texts.text();
        let text = texts.text();
        Case {
            call: Call::from(word(record, 0)),
            answer: (word(record, 1), number(record, 2)),
            allowance: signed(record, 3),
            page: signed(record, 4),
            input,
            text,
            lengths: [number(record, 5), number(record, 6), number(record, 7)],
            left: [texts.text(), texts.text(), texts.text()],
            name,
        }
    }
}

// What follows a run in a table that begins with it. A run is how many times, then the bytes that come so often: it begins with these bytes, and
// what follows them is how it begins. Each time by itself takes longer, since most runs are of one byte.
fn strip_run<'a>(table: &'a [u8], run: &[u8]) -> Option<&'a [u8]> {
    let (times, bytes) = run.split_first_chunk()?;
    let len = (u32::from_le_bytes(*times) as usize).checked_mul(bytes.len())?;
    let (front, rest) = table.split_at_checked(len)?;
    if !front.is_empty() {
        let after = front.strip_prefix(bytes)?;
        if !front.starts_with(after) {
            return None;
        }
    }
    Some(rest)
}

// The table is the runs, one after another, and then as lent.
fn holds(table: &[u8], runs: &[u8]) -> bool {
    Texts(runs)
        .try_fold(table, strip_run)
        .is_some_and(|rest| rest.iter().all(|b| *b == LENT))
}

// The front of a table, so long or the whole, with each byte as it is lent.
fn lend<const N: usize>(table: &mut [u8; N], len: usize) -> &mut [u8] {
    let end = len.min(N);
    let lent = &mut table[..end];
    lent.fill(LENT);
    lent
}

#[derive(Drop)]
struct Tables {
    first: [u8; FIRST],
    second: [u8; SECOND],
    third: [u8; THIRD],
}

impl Tables {
    fn lend(&mut self, lengths: [usize; 3]) -> Lent<'_> {
        let [first, second, third] = lengths;
        Lent {
            first: lend(&mut self.first, first),
            second: lend(&mut self.second, second),
            third: lend(&mut self.third, third),
        }
    }
}

// The tables of one call.
#[derive(Drop)]
struct Lent<'a> {
    first: &'a mut [u8],
    second: &'a mut [u8],
    third: &'a mut [u8],
}

impl Lent<'_> {
    fn outcome(&mut self, case: Case<'_>) -> Outcome {
        match case.call {
            Call::ReadBack => back::reading::read_back(case.input, self.first, self.second),
            Call::Write => lists::writing::write(case.input, case.text, self.first),
            Call::Load => skeleton::pages::load(case.input),
            Call::Run => book::calls::run(case.input, case.allowance, self.first, self.second),
            Call::Reprint => book::calls::reprint(
                case.input,
                case.allowance,
                case.page,
                self.first,
                self.second,
                self.third,
            ),
        }
    }

    // Each table holds what is left in it.
    fn hold(&self, left: [&[u8]; 3]) -> bool {
        let [first, second, third] = left;
        holds(self.first, first) && holds(self.second, second) && holds(self.third, third)
    }
}

// The call answers what it must, and leaves the tables as it must.
fn is_right(case: Case<'_>, tables: &mut Tables) -> bool {
    let mut lent = tables.lend(case.lengths);
    let outcome = lent.outcome(case);
    let answer = (answer_number(outcome), answer_value(outcome));
    answer == case.answer && lent.hold(case.left)
}

fn print_wrong(rt: &impl Print, name: &[u8]) -> io::Result<()> {
    rt.write_all(b"wrong: ")?;
    rt.write_all(name)?;
    rt.write_all(b"\n")
}

// How many cases were right, and how many wrong.
#[derive(Clone, Copy)]
struct Counts {
    right: usize,
    wrong: usize,
}

// Runs the cases one after another.
fn run_all(rt: &impl Print, records: &[u8], tables: &mut Tables) -> io::Result<Counts> {
    let mut counts = Counts { right: 0, wrong: 0 };
    for record in Texts(records) {
        let case = Case::read(record);
        if is_right(case, tables) {
            counts.right += 1;
        } else {
            print_wrong(rt, case.name)?;
            counts.wrong += 1;
        }
    }
    Ok(counts)
}

fn main(rt: HostRuntime) -> io::Result<()> {
    let mut file = fs::open(&rt, "cases")?;
    let mut bytes = [0u8; LONGEST];
    let n = read_full(&mut file, &mut bytes)?;
    drop(file);
    let mut tables = Tables {
        first: [0; FIRST],
        second: [0; SECOND],
        third: [0; THIRD],
    };
    let counts = run_all(&rt, &bytes[..n], &mut tables)?;
    println!(rt; "{} right, {} wrong", counts.right, counts.wrong)
}
